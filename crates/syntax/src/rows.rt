// Rows of a table (01, "Rows"; 02, L11).
ghost use Rattle.std.specs.Prelude.{◌≡◌, ◌+◌, ◌*◌, ◌≤◌, ◌<◌, length};
ghost use Rattle.syntax.specs.Rows.{row_words};
ghost use Rattle.syntax.specs.Holding.{word as word_of};

// Kind, first byte, byte after the last, direct children, rows of the subtree, and the row that it stands in.
pub const ROW_WORDS: usize = 6;

// A word of a row.
pub fn word(table: &[u32], row: usize, i: usize) -> u32
    requires { (i < row_words) × (row_words * (row + 1) ≤ length table.now) }
    ensures { result ≡ word_of table.now row i }
{
    table[ROW_WORDS * row + i]
}
