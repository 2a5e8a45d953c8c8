//! Whether a plan works from every initial state; else the first from which it fails, and where.
//! `IsVerdict` in `specs/Judging.antt` says what is answered.
#![tactic(auto)]

mod answer;
mod failing;
mod judge;
mod laws;
mod marks;
mod steps;
mod values;

pub use answer::{Judged, check};
pub use failing::At;
pub use laws::{failing_steps_fail, steps_fail_in_one_place};
