// Read (01, "Three services"): the first pass judges a text, the second writes its rows.
#![tactic(auto)]

mod reading;
mod scanning;

pub use reading::{read, read_within};
