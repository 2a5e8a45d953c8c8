//! Classical tasks: facts and operators by number, states, and the steps of operators. `specs/Steps.antt` says what a
//! step is.
#![tactic(auto)]

mod conds;
mod fits;
mod grounded;
mod laws;
mod runs;
mod said;
mod state;
mod steps;
mod task;

pub use conds::{applicable, meets};
pub use fits::is_fit;
pub use grounded::task_of;
pub use laws::success_is_a_run;
pub use runs::{run_ops, start};
pub use state::State;
pub use steps::step_into;
pub use task::{Conds, Op, OpEffect, Task};
