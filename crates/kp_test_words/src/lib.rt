//! Tests of words and the commands that they are, by example. There is nothing else here.
#![tactic(auto)]

#[cfg(test)]
mod commands;
#[cfg(test)]
mod files;
#[cfg(test)]
mod refusals;
#[cfg(test)]
mod words;
