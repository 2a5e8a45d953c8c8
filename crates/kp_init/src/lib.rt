//! The initial formula of a ground problem. `specs/Initial.antt` says what `initial` gives, and
//! `specs/Laws.antt` that its models are the initial states.
#![tactic(auto)]

mod clauses;
mod closed;
mod formula;
mod laws;
mod named;
mod one_of;

pub use formula::initial;
pub use laws::{
    initial_formulas_speak_of_ground_atoms, models_are_initial_states, plans_are_runs_from_models,
    plans_by_name_are_runs_from_models, plans_of_texts_are_runs_from_models,
};
