ghost use Rattle.std.specs.Prelude.{IfOk};
ghost use Rattle.kp_classic.specs.Fits.{IsFit};
ghost use Rattle.kp_search.specs.Scratch.{AreOf};

use kp_base::Memory;
use kp_classic::{State, Task, start};
use std::alloc::Global;

/// The states that the turns of a search work with.
#[derive(Drop)]
pub(crate) struct Scratch {
    /// The state at the start.
    pub(crate) first: State,
    /// The state of the entry that is taken.
    pub(crate) state: State,
    /// The state before that one, and then those after it.
    pub(crate) spare: State,
}

impl Scratch {
    /// The states of a task; each is the one at the start.
    pub(crate) fn new(alloc: Global, task: &Task) -> Result<Scratch, Memory>
        requires { IsFit task.now }
        ensures { IfOk result (AreOf task.now) }
    {
        Ok(Scratch {
            first: start(alloc, task)?,
            state: start(alloc, task)?,
            spare: start(alloc, task)?,
        })
    }
}
