//! A small search over the written files of some pairs of files, whose plans are judged in the given files, from each
//! initial state by itself. There is nothing else here.
#![tactic(auto)]

#[cfg(test)]
mod meaning;
#[cfg(test)]
mod plans;
