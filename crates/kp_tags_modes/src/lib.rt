//! The merges of a mode: over which relevant clauses the targets of a ground problem are merged.
//! `AreMergesOf` in `specs/Modes.antt` says which they are, `AnswersMode` in `specs/Answers.antt` what is answered.
#![tactic(auto)]

mod adding;
mod atoms;
mod laws;
mod modes;
mod targets;
mod way;

pub use laws::{
    merges_of_modes_are_good, modes_have_one_answer, some_modes_are_never_refused,
    some_modes_cover_each,
};
pub use modes::merges_of;
