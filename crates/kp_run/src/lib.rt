//! The commands of the program, each from its words to its status. `specs/Outcomes.antt` says which
//! outcome is due, `specs/Ends.antt` how a run ends.
#![tactic(auto)]

mod check;
mod classical;
mod entry;
mod inputs;
mod law;
mod lift;
mod merges;
mod outcomes;
mod solve;
mod strip;
mod translate;
mod width;

pub use entry::run;
pub use kp_run_outcome::Status;
pub use law::outcomes_are_answers;
