//! Tests of the table of the merges of a file, and of the table of a mode.
#![tactic(auto)]

#[cfg(test)]
mod given;
#[cfg(test)]
mod merges;
#[cfg(test)]
mod modes;
#[cfg(test)]
mod table;
