//! Tests of whether steps are a plan from every initial state.
#![tactic(auto)]

#[cfg(test)]
mod given;
#[cfg(test)]
mod rows;
#[cfg(test)]
mod unknown;
