//! How names, atoms, literals and numbers are printed. `specs/Spelling.antt` says what is put for each.
#![tactic(auto)]

mod bytes;
mod laws;
mod literals;
mod names;

pub use bytes::{put, put_count, put_number};
pub use laws::literals_are_bracketed;
pub use literals::{put_joined, put_literal, put_literals};
pub use names::{put_atoms, put_name, put_numbered};
