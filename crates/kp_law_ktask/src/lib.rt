//! The task of a ground problem and any table of tags and merges, by laws over definitions. `specs/Task.antt` says what it is.
#![tactic(auto)]

mod laws;

pub use laws::{
    both_weigh_alike, facts_are_counted, facts_are_known, facts_are_numbered, operators_do_steps,
    steps_are_injective, tagged_plans_are_accepted, tagged_plans_are_sound, tagged_steps_strip,
    tagged_tasks_are_fit, tagged_tasks_are_named, tagged_tasks_are_tasks,
    tagged_tasks_can_be_written, weight_is_counted,
};
