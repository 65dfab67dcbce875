// What the first pass keeps of a text, and the rows that the second writes from it.
#![tactic(auto)]

mod filling;
mod marks;
mod names;
mod packing;

pub use filling::fill;
pub use marks::{Branch, leaf_mark, list_mark};
pub use names::{name, push};
