//! What every command on a domain and a problem begins with: the two files are read, their ground problem and
//! the prime implicates of its initial formula are made, and no action clashes. `specs/Prepared.antt` says when a
//! command ends before it goes on, and with which refusal.
#![tactic(auto)]

mod files;
mod prepared;
mod preparing;
mod refusing;

pub use files::read_files;
pub use prepared::{Early, Prepared};
pub use preparing::prepare;
pub use refusing::{ended_by, ended_in, refuse, refuse_in, refuse_with};
