//! The texts of a translation with a table of tags and merges: the two files, and what is printed of
//! them. `specs/Translations.antt` says what they are.
#![tactic(auto)]

mod domain;
mod report;
mod translation;

pub use translation::{Translation, translation_with};
