//! Laws of the tagged machine: what it accepts is a plan, and a complete table loses no plan. `specs/Laws.antt` and `specs/Completeness.antt` say what is proved, `specs/Lifts.antt` what a lifted list is.
#![tactic(auto)]

mod completeness;
mod laws;

pub use completeness::{
    failing_lists_dont_lift, lifted_lists_are_best, lifted_lists_strip, lists_fail_once,
    lists_lift_or_fail, no_plan_is_lost,
};
pub use laws::{
    accepted_lists_are_plans, exclusive_pairs_are_inductive, inductive_pairs_stay_apart,
    no_clash_under_exclusive_pairs, no_clash_under_inductive_pairs, one_tag_has_no_merges,
    one_tag_is_a_table, operators_are_exact, same_models_say_the_same,
};
