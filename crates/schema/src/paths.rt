// The path to a mismatch (02, L11): found by its place among the rows of the document, and from there row by row to the one that each stands in.
ghost use Rattle.std.specs.Prelude.{◌≡◌, ◌*◌, ◌≤◌, length};
ghost use Rattle.syntax.specs.Rows.{row_words};
ghost use Rattle.schema.specs.Climbing.{first_at, ClimbReady, Climbed, PathReady, PathWritten};

use rows::parent_at;
use syntax::word;

// How many words a path takes at most: a value stands in at most 32 arrays and objects.
pub const PATH_WORDS: usize = 33;

// The row of the first value that begins at a place, of so many rows.
fn value_at(table: &[u32], rows: usize, place: u32) -> Option<usize>
    requires { row_words * rows ≤ length table.now }
    ensures { result ≡ first_at table.now place 0 rows }
{
    for row in 0..rows {
        if word(table, row, 1) == place && word(table, row, 0) != 9 {
            return Some(row);
        }
    }
    None
}

// Writes the rows from one up to 0, and tells how many.
// The list has room for them all, so that the loop ends with the top; a `for` over the list would need an end of its own for a full list.
fn climb(table: &[u32], from: usize, path: &mut [u32]) -> usize
    requires { ClimbReady table.now from path.old }
    ensures { Climbed table.now from result path.old path.new }
{
    let mut row = from;
    let mut n = 0;
    while row > 0 {
        path[n] = row as u32;
        n += 1;
        row = parent_at(table, row);
    }
    path[n] = 0;
    n + 1
}

// Writes the path to the value at a place, and tells how many rows it has.
pub fn write_path(table: &[u32], place: u32, path: &mut [u32]) -> usize
    requires { PathReady table.now place path.old }
    ensures { PathWritten table.now place result path.old path.new }
{
    let rows = word(table, 0, 4) as usize;
    climb(table, value_at(table, rows, place).unwrap(), path)
}
