//! Trees of domains and problems in an arena, and owned copies of them. `specs/Nodes.antt` says which trees they are.
#![tactic(auto)]

mod forms;
mod node;
mod whole;
mod words;

pub use node::{
    AtomNode, CondNode, DomainNode, EffNode, ItemNode, LitNode, PredNode, ProblemNode, SchemaNode,
    TermNode, TypedNode, WordNode,
};
pub use whole::{copy_domain, copy_problem};
