// Check, and the pointer of the value at its mismatch (RFC 6901), by the document's rows.
#![tactic(auto)]

mod explaining;
mod pieces;
mod pointers;

pub use explaining::{Explained, explain};
