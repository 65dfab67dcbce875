// The second pass: writes the rows that the first has kept.
ghost use Rattle.std.specs.Prelude.{◌≡◌, ◌+◌, ◌*◌, ◌≤◌, ◌<◌, ◌^◌, length, set};
ghost use Rattle.std.proofs.lemmas.List.Edits.{sets};
ghost use Rattle.syntax.specs.Rows.{row_words, entry, row as row_of};
ghost use Rattle.marks.specs.Marks.{mark_entry};
ghost use Rattle.marks.specs.Filling.{entry_of, mark_words, FillReady, onward};

use crate::packing::{first_in, fourth_in, second_in, third_in};
use syntax::{ROW_WORDS, word};

// The kind of an array (01, "Rows"); an object's is the next.
const ARRAY: u32 = 7;

// The kind of a name.
const NAME: u32 = 9;

// What a row says but for the row that it stands in.
#[derive(Clone, Copy, Debug, PartialEq, Eq)]
struct Entry {
    kind: u32,
    first: u32,
    end: u32,
    children: u32,
    rows: u32,
}

impl Entry {
    // A name, or a value that holds no other.
    fn leaf(kind: u32, first: u32, end: u32) -> Self
        ensures { entry_of result ≡ entry kind first end 0 1 }
    {
        Self {
            kind,
            first,
            end,
            children: 0,
            rows: 1,
        }
    }
}

// Writes a row, and tells how many rows its subtree has.
fn put(table: &mut [u32], row: usize, entry: Entry, parent: usize) -> usize
    requires row_words_in_bounds { row_words * row + row_words ≤ length table.old }
    requires parent_bound { parent < 2 ^ 32 }
    ensures value { result ≡ entry.rows }
    ensures table_after { table.new ≡ sets table.old (row_words * row) (row_of (entry_of entry) parent) }
{
    let at = ROW_WORDS * row;
    table[at] = entry.kind;
    table[at + 1] = entry.first;
    table[at + 2] = entry.end;
    table[at + 3] = entry.children;
    table[at + 4] = entry.rows;
    table[at + 5] = parent as u32;
    entry.rows as usize
}

// Writes the row that a mark stands for, and tells how many rows its subtree has. Each kind of mark has a call of its own: one call behind
// an `Entry` made in three ways chooses each number before it stores it, and makes Read slower.
fn put_mark(table: &mut [u32], row: usize, mark: u64, parent: usize) -> usize
    requires { (row_words * row + row_words ≤ length table.old) × (parent < 2 ^ 32) }
    ensures value { result ≡ (mark_entry mark).rows }
    ensures table_after { table.new ≡ sets table.old (row_words * row) (row_of (mark_entry mark) parent) }
{
    let first = first_in(mark) as u32;
    let last = second_in(mark) as u32;
    let rows = third_in(mark) as u32;
    let kind = fourth_in(mark) as u32;
    if first > last {
        return put(table, row, Entry::leaf(NAME, last, first + 1), parent);
    }
    if rows == 0 {
        return put(table, row, Entry::leaf(kind, first, last + 1), parent);
    }
    let entry = Entry {
        kind: ARRAY + kind % 2,
        first,
        end: last + 1,
        children: kind / 2,
        rows,
    };
    put(table, row, entry, parent)
}

// The mark of an array or object whose row is written makes way for the row of the nearest one around it that ends later: there one goes on behind
// its last row. It stands in row `parent`, which ends at `end`.
fn turn(marks: &mut [u64], row: usize, last: usize, parent: usize, end: usize)
    requires { (row < length marks.old) × (parent < length marks.old) }
    ensures { marks.new ≡ set marks.old row (onward marks.old last parent end) }
{
    let around = if last == end {
        marks[parent]
    } else {
        parent as u64
    };
    marks[row] = around;
}

// Writes the rows of the first marks. `parent` is the array or object whose rows are being written, and `end` the row behind them.
pub fn fill(marks: &mut [u64], table: &mut [u32], rows: usize)
    requires { FillReady marks.old rows × (row_words * rows ≤ length table.old) }
    ensures { table.new ≡ sets table.old 0 (mark_words marks.old rows) }
{
    let mut parent = 0;
    let mut end = rows;
    for row in 0..rows {
        if row == end {
            parent = marks[parent] as usize;
            end = parent + word(table, parent, 4) as usize;
        }
        let inner = put_mark(table, row, marks[row], parent);
        if inner > 1 {
            turn(marks, row, row + inner, parent, end);
            parent = row;
            end = row + inner;
        }
    }
}
