// What a text is made of: bytes, characters, strings, and names with a hash of their characters.
#![tactic(auto)]

mod bytes;
mod characters;
mod hashing;
mod plain;
mod refusals;
mod runs;
mod strings;
mod wide;

pub use bytes::peek;
pub use characters::{Character, Step, char_at, character_at, refusal_at};
pub use hashing::{Hashed, hashed_end};
pub use refusals::{Code, Reading, Refusal};
pub use runs::run_end;
pub use strings::{same_name, string_end};
