//! The questions on which the outcome of a command turns: each has an answer. `specs/Laws.antt` says what is proved.
#![tactic(auto)]

mod laws;

pub use laws::{
    clashes_are_decided, clauses_are_decided, coverages_are_decided, covers_are_decided,
    formulas_are_ascending, implicates_are_counted, made_tables_are_decided, models_are_decided,
    modes_are_decided, names_are_decided, relevance_is_decided, sizes_are_decided,
    steps_are_decided, tables_are_decided, tables_with_none_are_complete, tags_are_decided,
    targets_are_decided, targets_have_widths, verdicts_are_decided, widths_are_decided,
};
