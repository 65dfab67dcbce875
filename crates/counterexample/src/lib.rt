// A document that the old board cannot read (02, L1).
#![tactic(auto)]

mod exhibiting;
mod witnesses;

pub use exhibiting::counterexample;
