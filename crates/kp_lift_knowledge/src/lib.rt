//! What is known under each tag, as rows of bits over tags. `specs/Known.antt` says what a table tells, and `Machine` of
//! `kp_base` what a step makes of it.
#![tactic(auto)]

mod acting;
mod asking;
mod filling;
mod knowing;
mod met;
mod rows;

pub use knowing::Knowing;
