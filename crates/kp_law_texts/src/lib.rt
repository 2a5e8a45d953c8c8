//! Texts as lists of pieces. `specs/Pieces.antt` has the pieces, `specs/Tokens.antt` how they are cut, `specs/Texts.antt` what they read as.
#![tactic(auto)]

mod laws;

pub use laws::{pieces_are_cut, pieces_read_as_their_words, places_dont_matter};
