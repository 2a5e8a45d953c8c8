//! Files of merges, read and written. `specs/MergesFiles.antt` says which texts they are, with which merges.
#![tactic(auto)]

mod atoms;
mod laws;
mod literals;
mod merge;
mod printing;
mod reading;

pub use laws::a_merges_file_has_one_answer;
pub use merge::FileMerge;
pub use printing::merges_text;
pub use reading::read_merges;
