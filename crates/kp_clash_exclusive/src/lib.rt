//! Pairs of atoms, which literals they exclude, and what is noted of an action before its effects are looked at one by
//! one. `is_pair` in `specs/Paired.antt` says which pairs there are, `breaks` and `adds_pair` in `Removed.antt` when an
//! effect doesn't keep one apart.
#![tactic(auto)]

mod added;
mod asked;
mod between;
mod compatible;
mod joined;
mod left;
mod lone;
mod pairs;
mod start;
mod sure;
mod tables;
mod within;
mod words;

pub use added::may_add_pair;
pub use asked::may_exclude;
pub use between::{SLOTS, deletes_noted};
pub use compatible::{are_compatible, are_exclusive, may_fire, pre_compatible, stay_compatible};
pub use joined::{all_join, atoms_left, left_by};
pub use left::{candidates, likely};
pub use lone::{atoms_alone, is_alone};
pub use pairs::{Pairs, table_size, words_of};
pub use start::mark_clauses;
pub use tables::{Tables, is_small};
pub use within::holding;
pub use words::WORDS;
