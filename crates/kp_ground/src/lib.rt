//! The ground problem of a problem by number. `specs/Grounded.antt` says what `ground` answers.
#![tactic(auto)]

mod actions;
mod adds;
mod effect_atoms;
mod gathering;
mod grounding;
mod lasting;
mod literals;
mod made;
mod names;
mod numbered;
mod occurring;
mod rising;

pub use grounding::ground;
pub use kp_ground_flatten::{BoundCond, BoundEff, BoundNode, bind, flatten};
pub use kp_ground_semantics::{Flat, FlatEffect};
