// Check (01, "Three services"): whether a document meets a schema, its first mismatch and the path to it, and its dates.
#![tactic(auto)]

mod checking;
mod dates;
mod judging;
mod paths;

pub use checking::{Checked, check};
pub use paths::PATH_WORDS;
