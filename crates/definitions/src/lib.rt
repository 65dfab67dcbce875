// What is a definition (01, "Definitions"), and which schemas are accepted.
#![tactic(auto)]

mod accepting;
mod definitions;
mod shapes;
mod types;

pub use accepting::accept;
pub use definitions::{Fault, FaultCode, define};
pub use shapes::{generic_at, of_objects, type_at};
pub use types::{Generic, TypeName, generic_name, named_type, takes};
