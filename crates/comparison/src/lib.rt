// Compare (01, "Three services"): whether every value that meets a new schema meets an old one.
#![tactic(auto)]

mod carrying;
mod comparing;
mod fields;

pub use carrying::failing_field;
pub use comparing::compare;
pub use fields::find_under;
