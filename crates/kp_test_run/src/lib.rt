//! Tests of whole commands on files and printed lines that were written by hand. There is nothing else here.
#![tactic(auto)]

#[cfg(test)]
mod answers;
#[cfg(test)]
mod benches;
#[cfg(test)]
mod checking;
#[cfg(test)]
mod each_fault;
#[cfg(test)]
mod faults;
#[cfg(test)]
mod fronts;
#[cfg(test)]
mod implicates;
#[cfg(test)]
mod joins;
#[cfg(test)]
mod lifting;
#[cfg(test)]
mod limits;
#[cfg(test)]
mod merging;
#[cfg(test)]
mod modes;
#[cfg(test)]
mod refusals;
#[cfg(test)]
mod running;
#[cfg(test)]
mod solving;
#[cfg(test)]
mod stripping;
#[cfg(test)]
mod widths;
