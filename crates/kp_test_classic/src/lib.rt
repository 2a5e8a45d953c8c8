//! Tests of classical tasks.
#![tactic(auto)]

#[cfg(test)]
mod given;
#[cfg(test)]
mod grounded;
#[cfg(test)]
mod runs;
#[cfg(test)]
mod states;
