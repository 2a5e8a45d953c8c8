//! Tests of instances, their flat forms, the ground problem and the initial formula, on texts and values that were written
//! by hand. There is nothing else here.
#![tactic(auto)]

#[cfg(test)]
mod flattening;
#[cfg(test)]
mod formulas;
#[cfg(test)]
mod idle;
#[cfg(test)]
mod initials;
#[cfg(test)]
mod joins;
#[cfg(test)]
mod keeping;
#[cfg(test)]
mod limits;
#[cfg(test)]
mod reading;
