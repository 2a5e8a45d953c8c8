//! Tests of cutting a text into tokens and of copying trees, on values that were written by hand. There is nothing else
//! here.
#![tactic(auto)]

#[cfg(test)]
mod copying;
#[cfg(test)]
mod cutting;
