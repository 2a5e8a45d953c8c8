//! The ground problem of a problem by number. `specs/Ground.antt` says what it is, `specs/Laws.antt` that it has the same plans.
#![tactic(auto)]

mod flat;
mod laws;
mod numbers;

pub use flat::{Flat, FlatEffect};
pub use laws::{
    actions_are_named_by_steps, actions_are_named_once, atoms_are_numbered, conditions_split,
    flat_effects_are_exact, ground_plans_are_plans, ground_steps_are_exact,
    only_kept_instances_apply, repeats_fire_nothing_more, static_truth_at_first,
    static_truth_is_kept,
};
pub use numbers::{literal, literal_set};
