// The grammar, its rows and answers (01, "Text", "Rows", "Three services"): what Read and everything above it speak of.
#![tactic(auto)]

mod answers;
mod limits;
mod rows;

pub use answers::Answer;
pub use limits::Limits;
pub use rows::{ROW_WORDS, word};
