//! The search for a plan by entries of least estimate. `specs/Trace.antt` says what a search is, and `specs/Ends.antt` what
//! its end says of the task.
#![tactic(auto)]

mod course;
mod found;
mod key;
mod laws;
mod read;
mod scratch;
mod sorted;
mod spread;
mod table;
mod turns;
mod waiting;
mod watch;

pub use course::{Origin, Search};
pub use found::Found;
pub use key::Key;
pub use laws::{has_one_end, has_one_end_by_added, has_some_end, has_some_end_by_added};
pub use table::Table;
pub use turns::search;
pub use waiting::Waiting;
