//! What commands go on with: a problem with its relevance, with the table of tags and merges of a mode or of a file of merges, with its
//! task; and the actions of a plan file. `specs/SourceTables.antt`, `specs/Tasks.antt` and `specs/Actions.antt` say what they
//! are, and when a command ends before it has them.
#![tactic(auto)]

mod actions;
mod ending;
mod laws;
mod origin;
mod related;
mod tabled;
mod tables;
mod tasks;
mod translated;

pub use actions::actions_of;
pub use ending::settle;
pub use laws::{
    empty_tags_fit, plans_are_decided, plans_have_one_list, some_tables_are_complete,
    sources_are_decided, sources_go_by_models, sources_have_one_table, tables_are_right,
};
pub use origin::Origin;
pub use related::Related;
pub use tabled::Tabled;
pub use tables::tabled_of;
pub use tasks::{translated_of, written_of};
pub use translated::Translated;
