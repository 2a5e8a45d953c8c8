//! The words behind a command: positional words, and options with their values. A test of their shape, and
//! `clap`, which gives each argument its word. `specs/Words.antt` says what words say.
#![tactic(auto)]

mod assign;
mod given;
mod scan;
mod stop;

pub use assign::line_of;
pub use given::Given;
pub use stop::WordStop;
