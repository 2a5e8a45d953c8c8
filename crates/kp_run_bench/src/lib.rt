//! What `bench` comes to: a problem of a family and a size is made, translated and solved, and the plan's actions are checked.
//! `specs/Bench.antt` says what.
#![tactic(auto)]

mod judging;
mod laws;
mod running;
mod summary;
mod telling;
mod texts;

pub use laws::benches_have_one_outcome;
pub use running::bench;
