//! The state of an entry, and the operators that lead there.
ghost use Rattle.std.specs.Prelude.{◌≡◌, length, IfOk};
ghost use Rattle.kp_classic.specs.Fits.{IsFit};
ghost use Rattle.kp_search.specs.Trace.{first};
ghost use Rattle.kp_search.specs.Turns.{IsKnown, OfEntry};

use crate::{Origin, Search};
use kp_base::{Memory, Row};
use kp_classic::{State, Task, step_into};
use std::alloc::Global;

impl Search {
    // Makes a state that of an entry; another is written over.
    pub(crate) fn load(
        &self,
        task: &Task,
        number: usize,
        at_start: &State,
        spare: &mut State,
        state: &mut State,
    )
        requires fit { IsFit task.now }
        requires known { IsKnown task.now self.now number }
        requires at_start { at_start.now ≡ first task.now }
        requires spare_of_task { spare.old.facts ≡ length task.now.facts }
        requires of_task { state.old.facts ≡ length task.now.facts }
        ensures spare { spare.new.facts ≡ length task.now.facts }
        ensures facts { state.new.facts ≡ length task.now.facts }
        ensures state { OfEntry task.now self.now number (λ e. e.state ≡ state.new) }
    {
        match self.origins[number] {
            Origin::Start => state.copy_from(at_start),
            Origin::Step(place, op) => {
                self.table.load(place, spare);
                step_into(task, spare, op, state);
            }
        }
    }

    // The operators that lead to an entry.
    pub(crate) fn ops_to(
        &self,
        alloc: Global,
        task: &Task,
        number: usize,
    ) -> Result<Row<u32>, Memory>
        requires { IsKnown task.now self.now number }
        ensures { IfOk result (λ ops. OfEntry task.now self.now number (λ e. ops ≡ e.ops)) }
    {
        let mut back = Vec::new(alloc);
        let mut at = number;
        'back: loop {
            match self.origins[at] {
                Origin::Start => {
                    back.reverse();
                    return Ok(Row::from_vec(back));
                }
                Origin::Step(place, op) => {
                    back.push(op)?;
                    at = self.expanded[place as usize];
                }
            }
        }
    }
}
