//! The readers of the sections of whole files. `specs/Sections.antt` and `specs/Givens.antt` say what they give.
#![tactic(auto)]

mod domains;
mod problems;
mod sections;

pub use domains::domain;
pub use problems::problem;
