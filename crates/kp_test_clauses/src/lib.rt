//! Tests of what stands on numbers: literals, rows, bits, clauses, prime implicates, exclusive pairs, valid tags and tags of clauses.
#![tactic(auto)]

#[cfg(test)]
mod base;
#[cfg(test)]
mod bits;
#[cfg(test)]
mod clash;
#[cfg(test)]
mod clauses;
#[cfg(test)]
mod cov;
#[cfg(test)]
mod cover;
#[cfg(test)]
mod primes;
