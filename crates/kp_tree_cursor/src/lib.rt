//! The tokens of a file as the grammar sees them, and steps from one to the next.
//! `specs/Readers.antt` says which form of the grammar each call reads.
#![tactic(auto)]

mod bytes;
mod cursor;
mod halt;
mod lexeme;
mod runs;
mod tokens;

pub use bytes::{byte_of, lower_case};
pub use cursor::{Class, Lead, begins, close, follow, has, is_left, open, skip_name};
pub use halt::Halt;
pub use lexeme::Lexeme;
pub use runs::{run, skip_keywords, words};
pub use tokens::{Tokens, peek};
