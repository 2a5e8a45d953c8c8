//! Clauses: subsumption, resolution, and stores in which no clause is within another.
//! `specs/Resolved.antt` and `specs/Stored.antt` say what the calls give.
#![tactic(auto)]

mod clause;
mod laws;
mod lists;
mod mark;
mod rests;
mod sieve;
mod store;

pub use clause::{has_lit, is_tautology, resolve, resolvent, subsumes};
pub use laws::saturated_clauses_are_the_prime_implicates;
pub use lists::{list, make_lists};
pub use sieve::Sieve;
pub use store::{Added, Store};
