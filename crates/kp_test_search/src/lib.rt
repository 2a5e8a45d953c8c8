//! Tests of estimates, guides and the search.
#![tactic(auto)]

#[cfg(test)]
mod estimates;
#[cfg(test)]
mod given;
#[cfg(test)]
mod guides;
#[cfg(test)]
mod searches;
