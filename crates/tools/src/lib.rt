// The commands of the second program that only print, each a function over texts and tables that are lent to it. The first
// line is the four numbers of the answer.
#![tactic(auto)]

mod judging;

pub use judging::{dates, explain};
