//! What the command begins with that solves two classical files: they are read, and their ground problem and its task
//! are made. `specs/Classical.antt` says when the command ends before it goes on, and with which refusal.
#![tactic(auto)]

mod certain;
mod laws;
mod posed;
mod posing;

pub use laws::classical_plans_are_plans;
pub use posed::Posed;
pub use posing::prepare_classical;
