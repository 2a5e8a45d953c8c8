//! The declared names of two trees, each with its number, and what needs these alone: the objects of a type, `:init` and the goal by number. Each call says what it gives.
#![tactic(auto)]

mod below;
mod inhabited;
mod items;
mod name_set;
mod objects;
mod predicates;
mod scope;
mod tables;
mod under;
mod unsure;

pub use below::{OBJECT, below_type, below_types, types_under};
pub use inhabited::{inhabited_types, types_of_objects};
pub use items::{goal_literals, initial_items};
pub use name_set::NameSet;
pub use objects::objects_of;
pub use predicates::Declared;
pub use scope::Scope;
pub use tables::{Names, add_declared};
pub use unsure::unsure_place;
