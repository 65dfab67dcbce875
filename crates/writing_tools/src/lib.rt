// The commands of the second program that write a file, each a function over texts and tables that are lent to it. The first
// line is the four numbers of the answer. The file is written only with the answer that says so, whole; where that cannot be
// done, the line is `no file`.
#![tactic(auto)]

mod compacting;
mod exhibiting;

pub use compacting::compact;
pub use exhibiting::counterexample;
