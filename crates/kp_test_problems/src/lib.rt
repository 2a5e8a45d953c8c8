//! Literals, formulas and ground problems that tests are given, built from tables of numbers. Tests alone use them.
#![tactic(auto)]

mod cells;
mod formulas;
mod literals;
mod of_atoms;
mod problems;

pub use cells::{LEFT, ONE_OF_THREE};
pub use formulas::{formula, primes, primes_within};
pub use literals::{Sign, are_atoms, are_literals, are_sets, is_literal, literal, set, sets};
pub use of_atoms::is_of_its_atoms;
pub use problems::{Change, add, add_named, idle, name, named, single};
