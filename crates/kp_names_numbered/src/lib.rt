//! The problem by number of two trees. `specs/View.antt` says how contracts see it; each call says what it gives.
#![tactic(auto)]

mod alike;
mod effects;
mod lifted;
mod numbering;
mod ranges;
mod terms;

pub use kp_names_semantics::{GroundLit, Item, Pred, Range, Term};
pub use lifted::{Cond, Eff, Lifted, Schema};
pub use numbering::by_number;
