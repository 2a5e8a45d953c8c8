//! The tree of an instance in an arena, and its flat form. `specs/Bound.antt` says what they are.
#![tactic(auto)]

mod arena;
mod binding;
mod conditions;
mod effects;
mod evaluating;
mod flattener;
mod flattening;
mod handing;
mod laws;
mod literal;
mod node;
mod shape;
mod sink;
mod walking;

pub use binding::bind;
pub use flattener::Flattener;
pub use flattening::{flatten, flatten_over};
pub use laws::{
    bound_conditions_hold_alike, bound_conditions_split_alike, bound_effects_are_flat_alike,
    bound_effects_fire_alike, trees_are_flat_alike,
};
pub use literal::BoundLit;
pub use node::{BoundCond, BoundEff, BoundNode};
pub use sink::Sink;
pub use walking::{hand_over, left_of};
