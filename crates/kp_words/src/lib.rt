//! The words of a command line, and what they ask for. `specs/Command.antt` says which words are which
//! command, by the table of `specs/Forms.antt`.
#![tactic(auto)]

mod asked;
mod commands;
mod entry;
mod files;
mod help;
mod law;
mod lookup;
mod source;
mod values;
mod verb;

pub use asked::Asked;
pub use commands::Command;
pub use entry::{as_texts, asked_by, command};
pub use help::usage;
pub use kp_words_options::WordStop;
pub use law::{words_are_decided, words_are_one_command};
pub use source::{Family, Source};
pub use values::USUAL_LIMIT;
pub use verb::Verb;
