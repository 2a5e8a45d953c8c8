//! The exclusive pairs of a ground problem, and whether an action adds and deletes one atom under conditions that may
//! hold together. `AreExclusive` in `kp_base/specs/Exclusive.antt` says what `exclusive` gives, and
//! `IsFirstClash` and `HasNoClash` in `Clashes.antt` there what `clash_test` gives.
#![tactic(auto)]

mod broken;
mod clash;
mod deleted;
mod find;
mod settle;

pub use clash::clash_test;
pub use find::exclusive;
pub use kp_clash_exclusive::Pairs;
