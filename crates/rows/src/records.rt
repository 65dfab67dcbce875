// Rows of a table (01, "Rows"; 02, L11).
ghost use Rattle.std.specs.Prelude.{◌≡◌, ◌+◌, ◌-◌, ◌*◌, ◌≤◌, length};
ghost use Rattle.chars.specs.Strings.{part};
ghost use Rattle.syntax.specs.Rows.{row_words};
ghost use Rattle.syntax.specs.Holding.{word as word_of};
ghost use Rattle.rows.specs.Records.{InTable, Reads};

use syntax::word;

// A row: its kind, where its bytes begin and end, how many children it has, and the row behind its subtree. The kind is the paper's number, here and
// where it is tested: `row_at` asks only that the row lies in the table, so an enum would need a variant for words that are no kind.
#[derive(Clone, Copy, Debug, PartialEq, Eq)]
pub struct Record {
    pub kind: u32,
    pub first: u32,
    pub end: u32,
    pub children: u32,
    pub next: usize,
}

// A text, and the table of its rows.
#[derive(Clone, Copy, Debug, PartialEq, Eq)]
pub struct Tree<'a> {
    pub text: &'a [u8],
    pub table: &'a [u32],
}

impl<'a> Tree<'a> {
    // A row, read whole.
    pub fn row_at(self, row: usize) -> Record
        requires { InTable self.table.now row }
        ensures { Reads self.entry.table.now row result }
    {
        Record {
            kind: word(self.table, row, 0),
            first: word(self.table, row, 1),
            end: word(self.table, row, 2),
            children: word(self.table, row, 3),
            next: row + word(self.table, row, 4) as usize,
        }
    }

    // The bytes between the quotes of a string or a name that begins at `first` and ends before `end`.
    pub fn between(self, first: u32, end: u32) -> &'a [u8]
        requires { (first + 2 ≤ end) × (end ≤ length self.text.now) }
        ensures { result.now ≡ part self.entry.text.now (first + 1) (end - 1) }
    {
        let from = first as usize + 1;
        let to = end as usize - 1;
        &self.text[from..to]
    }
}

// The row of the array or object that a row stands in. Whoever climbs has a table alone, and no text (02, L11).
pub fn parent_at(table: &[u32], row: usize) -> usize
    requires { row_words * (row + 1) ≤ length table.now }
    ensures { result ≡ word_of table.now row 5 }
{
    word(table, row, 5) as usize
}
