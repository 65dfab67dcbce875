// What a program needs around a service: its command, the files that its arguments name, and the lines that it prints.
#![tactic(auto)]

mod commands;
mod excerpts;
mod files;
mod lines;
mod saving;

pub use commands::{Usage, asked};
pub use excerpts::Excerpt;
pub use files::{Broken, NoFile, load, read_full};
pub use lines::{Numbers, line, print, print_line, put};
pub use saving::save;

// The limit of a document, in bytes.
pub const LIMIT: usize = 65536;

// One byte over it, so that a longer file gives the service a text over its limit, be it a document or a schema.
pub const TEXT: usize = LIMIT + 1;

// 01: "Its tables have 16,380 words each".
pub const TABLE: usize = 16380;
