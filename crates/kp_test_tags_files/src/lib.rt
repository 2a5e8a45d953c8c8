//! Tests of files of merges, on texts that were written by hand. There is nothing else here.
#![tactic(auto)]

#[cfg(test)]
mod given;
#[cfg(test)]
mod printing;
#[cfg(test)]
mod reading;
