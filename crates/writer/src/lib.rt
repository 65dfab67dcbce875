// Compact (02, L6): one spelling for a file.
#![tactic(auto)]

mod characters;
mod compacting;
mod pieces;
mod runs;
mod writing;

pub use compacting::compact;
// For the crates above: a character in UTF-8, and a string in its one spelling.
pub use characters::write_utf8;
pub use pieces::{Piece, write_string};
