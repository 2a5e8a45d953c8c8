//! Sweeps over the actions, which remove pairs that don't stay, but none of an inductive set. `Shrinks` in
//! `kp_clash_exclusive/specs/Removed.antt` says so.
#![tactic(auto)]

mod alone;
mod asking;
mod breaking;
mod outline;
mod sweep;
mod together;
mod touched;

pub use asking::Asking;
pub use breaking::{adds_pair, breaks};
pub use sweep::sweep_on;
pub use touched::Touched;
