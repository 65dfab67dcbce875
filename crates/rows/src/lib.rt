// Rows of a table (01, "Rows"): reading one, finding a member by its name, and many members at once.
#![tactic(auto)]

mod children;
mod finding;
mod matching;
mod records;

pub use children::Children;
pub use matching::{FEW_NAMES, MOST_NAMES, SOME_NAMES, wide};
pub use records::{Record, Tree, parent_at};
