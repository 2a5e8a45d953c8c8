//! The task of a ground problem and a table of tags and merges. `specs/Task.antt` of `kp_law_ktask` says what it is,
//! `specs/Translated.antt` when it is refused.
#![tactic(auto)]

mod effects;
mod facts;
mod numbers;
mod operators;
mod translating;
mod weights;

pub use effects::{effect_room, set_cancellation, set_support};
pub use numbers::literal_of;
pub use operators::{merge_operator, operator};
pub use translating::{judge, outline, sizes, translate};
