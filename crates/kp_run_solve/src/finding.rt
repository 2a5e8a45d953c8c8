//! The search of a task.
ghost use Rattle.std.specs.Prelude.{IfOk};
ghost use Rattle.kp_search.specs.Ends.{Tells};
ghost use Rattle.kp_run_solve.specs.Solving.{Finds};

use kp_base::Memory;
use kp_classic::{Task, is_fit};
use kp_guide::Additive;
use kp_search::{Found, search};
use std::alloc::Global;

/// What the search of a task ends with, guided by the estimate `added`. A task with a number that is none of its facts', or
/// with more facts or operators than 2,147,483,647, is want of memory.
pub fn find(alloc: Global, task: &Task, budget: u32) -> Result<Found, Memory>
    ensures finds { IfOk result (Finds task.now budget) }
    ensures tells { IfOk result (Tells task.now budget) }
{
    if !is_fit(task) {
        return Err(Memory);
    }
    let guide = Additive::of(alloc, task)?;
    let found = search(alloc, task, &guide, budget)?;
    Ok(found)
}
