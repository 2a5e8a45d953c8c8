//! Which instances of a problem by number are kept, in order, found among all lists of objects; and counts. `specs/Counts.antt` says how far these are followed.
#![tactic(auto)]

mod atom_set;
mod bindings;
mod changed;
mod changes;
mod counting;
mod keeping;
mod kept;
mod settling;
mod stated;
mod statics;

pub use bindings::{all_bindings, binding_total, fill_binding};
pub use counting::{problem_bindings, schema_weight};
pub use keeping::{Keeping, instance, keep_schemas};
pub use kept::Kept;
pub use settling::{object_of, put_objects, settled_in, signed};
pub use statics::Statics;
