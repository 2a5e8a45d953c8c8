//! What `solve` and `classical` come to on a task: a plan is searched for, and what is found is told by name.
//! `specs/Solving.antt` says what.
#![tactic(auto)]

mod finding;
mod laws;
mod names;
mod solving;
mod telling;

pub use finding::find;
pub use laws::{
    classical_solvings_have_one_outcome, ends_are_true, named_plans_are_accepted,
    no_plan_is_accepted, operators_have_names, solvings_have_one_outcome,
};
pub use solving::{solve_classical, solve_table};
pub use telling::tell_solved;
