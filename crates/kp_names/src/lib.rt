//! Names by number, or the first token with a fault. `specs/Resolved.antt` says what `resolve` gives.
#![tactic(auto)]

mod declarations;
mod faults;
mod first;
mod judge;
mod laws;
mod resolving;
mod schema_faults;
mod whole;

pub use kp_names_numbered::{Cond, Eff, GroundLit, Item, Lifted, Pred, Range, Schema, Term};
pub use laws::the_first_fault_is_first;
pub use resolving::resolve;
