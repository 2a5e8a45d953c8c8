//! Estimates that guide a search, and the guide that keeps one. `specs/Guides.antt` says what is asked of an estimate, and
//! `specs/Added.antt` what the estimate `added` is.
#![tactic(auto)]

mod adders;
mod adding;
mod additive;
mod costs;
mod estimating;
mod estimator;
mod guide;
mod index;
mod laws;
mod making;
mod places;
mod relaxation;
mod rows;
mod rule;
mod rules;
mod settle;

pub use adding::added;
pub use additive::Additive;
pub use estimator::Estimator;
pub use guide::{Estimate, Guide};
use index::Index;
pub use laws::{added_exists, added_is_one, added_is_right};
pub use rule::Rule;
