// What stands in one object under each name of another. The other's names are indexed by the hash of their characters, so that the time is linear in both.
ghost use Rattle.std.specs.Prelude.{◌≡◌, true, ◌+◌, ◌≤◌, ◌<◌, length, replicate};
ghost use Rattle.tokens.specs.Spelling.{IsQuoted};
ghost use Rattle.syntax.specs.Grammar.{name_of};
ghost use Rattle.syntax.specs.Holding.{word as word_of};
ghost use Rattle.rows.specs.Records.{InTable, ObjectRow};
ghost use Rattle.rows.specs.Matching.{most_names, bucket_count, Buckets, HasIndex, Indexes, filled, Fills, Matches};

use crate::records::Tree;
use chars::{hashed_end, same_name};

// How many names an index has room for at most, and in how many buckets.
pub const MOST_NAMES: usize = 2048;

const BUCKETS: usize = 1024;

// Up to so many names get room for so many, and not for `MOST_NAMES`: all of it is cleared.
pub const SOME_NAMES: usize = 1024;

// With fewer names on either side they are looked up one by one.
pub const FEW_NAMES: u32 = 32;

// Whether the names of an object are looked up by an index: both sides have many, and there is room.
pub fn wide(members: u32, names: u32) -> bool
    ensures { result ≡ true → names ≤ most_names }
{
    members >= FEW_NAMES && names >= FEW_NAMES && names as usize <= MOST_NAMES
}

// A name: where its bytes begin and end, and the place of the name before it in its bucket.
#[derive(Clone, Copy, Debug, PartialEq, Eq)]
struct Entry {
    first: u32,
    end: u32,
    before: Option<u16>,
}

// What stands at a place where no name is.
const NO_ENTRY: Entry = Entry {
    first: 0,
    end: 0,
    before: None,
};

// The names of an object of a tree, NAMES at most, in their order, and of each bucket the place of its last name.
#[derive(Clone, Copy, Debug, PartialEq, Eq)]
struct Index<'a, const NAMES: usize> {
    tree: Tree<'a>,
    heads: [Option<u16>; BUCKETS],
    names: [Entry; NAMES],
}

impl<'a, const NAMES: usize> Index<'a, NAMES> {
    // Indexes the names of the object at a row of the tree: each leads to the one before it in its bucket.
    fn list(&mut self, object: usize)
        requires object_row { ObjectRow self.old.tree.text.now self.old.tree.table.now object }
        requires few { word_of self.old.tree.table.now object 3 ≤ NAMES }
        requires places { NAMES ≤ 65536 }
        requires empty { (self.old.heads ≡ replicate bucket_count None) × (length self.old.names ≡ NAMES) }
        ensures { Indexes self.old.tree.text.now self.old.tree.table.now object self.new }
    {
        let tree = self.tree;
        for (i, row) in tree.members(object).enumerate() {
            let name = tree.row_at(row);
            let b = tree.bucket(name.first);
            self.names[i] = Entry {
                first: name.first,
                end: name.end,
                before: self.heads[b],
            };
            self.heads[b] = Some(i as u16);
        }
    }

    // A member of another object, its name at a row and its value behind it: found for each indexed name that is the same and has none yet.
    fn fill(&self, tree: Tree, row: usize, found: &mut [Option<usize>; NAMES])
        requires in_table { InTable tree.table.now row }
        requires quoted { IsQuoted tree.text.now (word_of tree.table.now row 1) (word_of tree.table.now row 2) }
        requires has_index { HasIndex self.now }
        requires found_len { length found.old ≡ NAMES }
        ensures { Fills self.now
            (name_of tree.entry.text.now (word_of tree.entry.table.now row 1) (word_of tree.entry.table.now row 2)) (row + 1) found.old found.new }
    {
        let name = tree.row_at(row);
        let key = tree.between(name.first, name.end);
        let mut next = self.heads[tree.bucket(name.first)];
        while let Some(place) = next {
            let j = place as usize;
            let entry = self.names[j];
            let same = same_name(self.tree.between(entry.first, entry.end), key);
            found[j] = settle(same, row + 1, found[j]);
            next = entry.before;
        }
    }
}

// What is found for a name behind a member that has it or not, its value at `row`: the first such row counts.
fn settle(same: bool, row: usize, found: Option<usize>) -> Option<usize>
    ensures { result ≡ filled same row found }
{
    if same { found.or(Some(row)) } else { found }
}

impl<'a> Tree<'a> {
    // The bucket of the name whose opening quote is at `first`.
    fn bucket(self, first: u32) -> usize
        requires { first < length self.text.now }
        ensures { Buckets self.entry.text.now first result }
    {
        match hashed_end(self.text, first as usize + 1) {
            Ok(name) => name.hash as usize / 64,
            Err(_) => 0,
        }
    }

    // For each member at row `part` of another tree, in order, for which nothing is found yet: the row of the value under its name in the object at a row.
    pub fn match_names<const NAMES: usize>(
        self,
        object: usize,
        other: Tree,
        part: usize,
        found: &mut [Option<usize>; NAMES],
    )
        requires object_row { ObjectRow self.text.now self.table.now object }
        requires object_row_2 { ObjectRow other.text.now other.table.now part }
        requires part_bound { (word_of other.table.now part 3 ≤ NAMES) × (length found.old ≡ NAMES) }
        requires places { NAMES ≤ 65536 }
        ensures { Matches self.entry.text.now self.entry.table.now object other.entry.text.now other.entry.table.now part
            found.old found.new }
    {
        // Filled where it stands, since a struct of this size that a call gives back would be copied, and take the stack twice.
        let mut index = Index {
            tree: other,
            heads: [None; BUCKETS],
            names: [NO_ENTRY; NAMES],
        };
        index.list(part);
        for row in self.members(object) {
            index.fill(self, row, found);
        }
    }
}
