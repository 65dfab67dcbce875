// What stands between the brackets of a text: space, and the values that hold no other (numbers, strings and literals).
#![tactic(auto)]

mod numbers;
mod scalars;
mod space;
mod tokens;

pub use scalars::{First, first_at, integer_end, scalar};
pub use space::skip;
pub use tokens::{Kind, Token, unexpected};
