//! What a command comes to, carried out on the outside: its files put, its text printed.
//! `specs/Ends.antt` says what the outside holds and was told afterwards.
#![tactic(auto)]

mod carry;
mod outcome;
mod status;

pub use carry::{carry_out, stopped};
pub use outcome::{FilePut, Outcome};
pub use status::Status;
