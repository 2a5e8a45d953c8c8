//! The prime implicates of an initial formula, and what they say of tags.
//! `AnswersPrimes` and `AnswersClosure` in `specs/Answers.antt` say what is built and answered.
#![tactic(auto)]

mod ask;
mod build;
mod holders;
mod include;
mod laws;
mod near;
mod primes;
mod range;
mod resolving;

pub use laws::limits_are_exact;
pub use primes::Primes;
pub use range::{are_of_atoms, is_of_atoms};
