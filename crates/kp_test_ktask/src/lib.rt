//! Tests of tasks of tags and merges, and of their texts.
#![tactic(auto)]

#[cfg(test)]
mod given;
#[cfg(test)]
mod tasks;
#[cfg(test)]
mod texts;
