//! Syntax trees of domains and problems, and the grammar that says which texts have them.
//! `specs/Grammar.antt` has the grammar, `specs/Reading.antt` what it is to read by it.
#![tactic(auto)]

mod laws;
mod lookup;
mod symbol;
mod tree;

pub use laws::{
    a_file_reads_or_stops, a_form_reads_once, a_form_stops_once, each_form_reads_or_stops,
    names_in_trees_are_names, no_form_reads_and_stops, what_is_left_does_not_matter,
    word_classes_are_complete,
};
pub use lookup::symbol_of;
pub use symbol::Symbol;
pub use tree::{
    AtomTree, CondTree, Domain, EffTree, ItemTree, LitTree, PredTree, Problem, SchemaTree,
    TermTree, Typed, Word,
};
