//! What files mean: problem, state, step, initial state and plan, by name and by number. `specs/Plans.antt` says what a plan is.
#![tactic(auto)]

mod laws;
mod lifted;

pub use laws::{
    conditions_mean_the_same_by_number, effects_mean_the_same_by_number, goals_have_no_equality,
    initial_states_are_the_same_by_number, instances_are_named_once, no_token_has_two_faults,
    places_mean_nothing, plans_are_the_same_by_number, steps_are_the_same_by_number,
    texts_have_one_problem, type_test_is_exact, what_decodes_was_encoded, what_was_encoded_decodes,
};
pub use lifted::{GroundLit, Item, Pred, Range, Term};
