//! Which literals are relevant to which, and which clauses to a literal.
//! `IsRelevant` in `specs/Relevance.antt` of `kp_base` says what relevance is, and `AreClausesFor` there which clauses
//! are answered.
#![tactic(auto)]

mod fill;
mod gather;
mod laws;
mod lone;
mod order;
mod reach;
mod relevance;
mod table;

pub use gather::either_value;
pub use laws::{relevance_goes_by_chains, relevance_is_least, there_is_one_list_of_clauses};
pub use relevance::Relevance;
