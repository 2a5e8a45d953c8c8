//! What the sections of a file state, put together one by one. `specs/Parts.antt` says what each is to the grammar.
#![tactic(auto)]

mod domains;
mod problems;

pub use domains::{Declared, DomainPart, as_domain, keep_section};
pub use problems::{Once, ProblemPart, Stated, as_problem, has_stood, keep_given, note};
