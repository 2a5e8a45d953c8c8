//! What two given files mean, and what is written for them with a table of tags and merges. The plans of the written files strip to plans of the given ones, and with a complete table each plan of the given ones lifts to one of the written. `specs/OfTrees.antt` has the given files' ground problem and initial formula, `specs/Tables.antt` the tables for them, `specs/Written.antt` what is written; `specs/Given.antt` and `specs/Laws.antt` say what is proved.
#![tactic(auto)]

mod given;
mod laws;

pub use given::{
    closures_are_starts, different_states_are_different_models, empty_tags_are_light,
    formulas_speak_of_ground_atoms, ground_problems_are_of_their_atoms,
    ground_problems_can_be_written, initial_states_are_models, names_tell_ground_atoms,
    starts_speak_of_ground_atoms, tables_can_be_written,
};
pub use laws::{
    lifts_are_written, plans_lift, translations_are_sound, written_plans_strip_to_solutions,
};
