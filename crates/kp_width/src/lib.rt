//! The width of a planning problem: for each target the least set of relevant clauses whose tags cover it.
//! `HasWidth` in `specs/Width.antt` says what the width of a target is, `AnswersWidth` in `specs/Answers.antt` what is
//! answered.
#![tactic(auto)]

mod laws;
mod measure;
mod problem;
mod report;
mod row;
mod tags;
mod target;

pub use laws::{
    covers_over_are_more_than_bound, every_target_has_a_width, known_problems_are_answered,
    problems_have_one_width, reports_have_the_width, rows_have_the_width, targets_over_are_wider,
};
pub use measure::width;
pub use report::{WidthReport, WidthRow};
