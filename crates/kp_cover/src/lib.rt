//! Merges and covers: whether the tags of a merge are valid, the tags of clauses, whether they cover others, and which
//! targets the merges of a table cover.
//! `AnswersValid` in `specs/Valid.antt` says what is answered of a merge, `AreTagsOfClauses` in `kp_base` which tags are those of
//! clauses, `specs/Covering.antt` when they cover, and `AnswersCoverage` in `specs/Coverage.antt` what is answered of a
//! table.
#![tactic(auto)]

mod answer;
mod covering;
mod deny;
mod distinct;
mod laws;
mod least;
mod left;
mod meet;
mod merge;
mod needed;
mod outside;
mod places;
mod product;
mod tags;
mod tested;

pub use answer::Coverage;
pub use covering::coverage;
pub use distinct::Tags;
pub use laws::{
    clauses_have_one_cov, covers_are_told, none_are_uncovered_if_complete,
    relevant_clauses_are_of_atoms, tags_of_candidates_are_good, there_is_one_coverage,
    there_is_one_list_of_uncovered,
};
pub use least::least_cover;
pub use meet::covers;
pub use needed::targets;
pub use places::picked;
pub use product::cov;
pub use tags::{Validity, valid};
pub use tested::{empty_tag_covers, is_cover};
