// Values that meet a definition, written out: what a counterexample (02, L1) is made of.
#![tactic(auto)]

mod fresh;
mod pieces;
mod values;

pub use fresh::write_beyond;
pub use pieces::{write_bytes, write_name};
pub use values::{write_others, write_sample};
