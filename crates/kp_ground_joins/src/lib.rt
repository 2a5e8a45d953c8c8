//! The kept instances of a problem by number, within the limits, found among all lists of objects or by joins over static facts. `specs/Limits.antt` says which refusals there are.
#![tactic(auto)]

mod extending;
mod joining;
mod keeping;
mod laws;
mod unrefuted;

pub use joining::join;
pub use keeping::kept_instances;
pub use laws::{kept_bindings_are_joined, partial_bindings_go_on};
pub use unrefuted::unrefuted_in;
