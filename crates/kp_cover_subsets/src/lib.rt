//! Sets of one size from a list, in order: how many there are, and the first that passes a test, by sizes.
//! `AnswersLeast` in `specs/Sizes.antt` says what is found.
#![tactic(auto)]

mod count;
mod laws;
mod search;
mod sizes;

pub use count::count_sets;
pub use laws::{no_smaller_set_passes, sets_are_in_order, subsets_are_sublists};
pub use search::{Test, first_set};
pub use sizes::{LeastSet, least_set};
