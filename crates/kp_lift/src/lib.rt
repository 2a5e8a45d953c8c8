//! Lists of actions with the merges put in that they need. `specs/Lifting.antt` says what is answered, and
//! `specs/Lifts.antt` of `kp_law_tagged_machine` what a lifted list is.
#![tactic(auto)]

mod laws;
mod lifting;
mod merging;
mod running;
mod steps;

pub use laws::{lifted_operators_are_steps, operators_are_steps};
pub use lifting::{Lifting, lift};
pub use steps::steps_of;
