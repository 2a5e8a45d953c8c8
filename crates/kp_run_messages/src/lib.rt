//! What commands print: each refusal, where a plan fails, whether a table is complete, how a search
//! ends without a plan, and how wide a problem is.
//! `specs/Refusals.antt` says the lines of each refusal.
#![tactic(auto)]

mod clash;
mod coverage;
mod failing;
mod lines;
mod refusals;
mod searches;
mod widths;

pub use coverage::put_coverage;
pub use failing::{counterexample, unlifted};
pub use refusals::{Nameable, refusal};
pub use searches::{no_classical_plan, no_plan, spent};
pub use widths::{over, width_report};
