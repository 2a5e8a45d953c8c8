//! The first model that passes one of some tests, where each test may be decided from some known literals.
//! `AnswersFirst` in `specs/Ordered.antt` says what is answered.
#![tactic(auto)]

mod finding;
mod laws;
mod least;
mod question;
mod truth;

pub use laws::{first_goes_by_what_passes, there_is_one_first};
pub use least::first;
pub use question::{Question, Seen};
pub use truth::{Truth, truth_in};
