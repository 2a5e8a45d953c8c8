//! The two texts of a task, and what they read as. `specs/Written.antt` says what is written, and
//! `specs/Texts.antt` what it reads as.
#![tactic(auto)]

mod laws;
mod putting;
mod writing;

pub use laws::{
    facts_tell_apart, plans_are_runs, task_plans_are_runs, tasks_read, written_domains_read,
    written_problems_read, written_texts_have_a_problem,
};
pub use putting::{put_effect, put_operator, put_operator_end, put_operator_front};
pub use writing::{problem_text, put_domain_end, put_domain_front};
