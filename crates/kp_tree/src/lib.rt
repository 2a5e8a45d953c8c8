//! Trees of whole files, and the exact place of each refusal. `specs/Files.antt` says which files are read and how the others are refused.
#![tactic(auto)]

mod file;
mod laws;
mod parse;

pub use file::{read_domain, read_problem};
pub use kp_tree_arena::{
    AtomNode, CondNode, DomainNode, EffNode, ItemNode, LitNode, PredNode, ProblemNode, SchemaNode,
    TermNode, TypedNode, WordNode, copy_domain, copy_problem,
};
pub use kp_tree_grammar::{
    AtomTree, CondTree, Domain, EffTree, ItemTree, LitTree, PredTree, Problem, SchemaTree,
    TermTree, Typed, Word,
};
pub use laws::a_file_has_one_answer;
pub use parse::{parse_domain, parse_problem};
