//! Tests of names as words and of plans as text, on values that were written by hand. There is nothing else here.
#![tactic(auto)]

#[cfg(test)]
mod finding;
#[cfg(test)]
mod names;
#[cfg(test)]
mod reading;
#[cfg(test)]
mod stripping;
