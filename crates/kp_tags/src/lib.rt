//! Tags and merges of a translation: the table of the merges of a file, or of a mode.
//! `IsTableOf` in `specs/MergeTables.antt` says which table merges have, `AnswersTable` in `specs/Answers.antt` what is answered
//! on those of a file, `AnswersMade` in `specs/Made.antt` what is answered in a mode.
#![tactic(auto)]

mod accepting;
mod judging;
mod laws;
mod making;
mod merge;
mod numbers;
mod rows;
mod tags;

pub use accepting::accept_merges;
pub use kp_base::Mode;
pub use kp_tags_files::{FileMerge, merges_text, read_merges};
pub use laws::{
    accepted_tables_are_right, coverage_goes_by_models, made_tables_are_complete,
    made_tables_are_right, made_tables_go_by_models, tables_go_by_models, there_is_one_made_table,
    there_is_one_table,
};
pub use making::make;
pub use merge::tags_are_of_atoms;
