//! Tests of shelves and sinks, in memory and on the machine. There is nothing else here.
#![tactic(auto)]

#[cfg(test)]
mod outside;
