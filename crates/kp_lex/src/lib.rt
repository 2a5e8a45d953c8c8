//! Tokens from the bytes of a file. `specs/Cutting.antt` says how a text is cut.
#![tactic(auto)]

mod class;
mod cutting;
mod laws;
mod piece;
mod places;
mod token;
mod words;

pub use cutting::{Beginning, tokens, tokens_within};
pub use laws::{one_outcome, token_spans};
pub use places::place;
pub use token::{Token, TokenKind};
pub use words::{is_word, word};
