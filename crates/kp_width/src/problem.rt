//! A ground problem, with what was made of it.

use kp_base::Ground;
use kp_primes::Primes;
use kp_relevance::Relevance;

/// A ground problem, with its prime implicates and its relevance.
#[derive(Clone, Copy)]
pub(crate) struct Problem<'a> {
    pub ground: &'a Ground,
    pub primes: &'a Primes,
    pub relevance: &'a Relevance,
}
