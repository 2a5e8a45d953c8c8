//! The state at the start, and where operators lead from it.
ghost use Rattle.std.specs.Prelude.{◌≡◌, true, length, IfOk, IsTrue};
ghost use Rattle.kp_classic.specs.Fits.{are_below, IsFit};
ghost use Rattle.kp_classic.specs.States.{has, fact_set_of};
ghost use Rattle.kp_classic.specs.Runs.{state_at_end};
ghost use Rattle.kp_classic.specs.Steps as steps;

use crate::{State, Task, applicable, step_into};
use kp_base::{Memory, Row};
use std::alloc::Global;
use std::mem;

/// The state at the start.
pub fn start(alloc: Global, task: &Task) -> Result<State, Memory>
    requires { IsFit task.now }
    ensures { IfOk result (λ s. s ≡ fact_set_of (length task.now.facts) (steps.start task.now)) }
{
    let mut state = State::empty(alloc, task.facts.len() as u32)?;
    for fact in task.init.slice() {
        state.add(*fact);
    }
    state.ascends();
    Ok(state)
}

// Makes the state the one at the end of the operators, by way of another state. Whether each was applicable in its turn;
// else the states are open.
fn run_on(task: &Task, ops: &[u32], state: &mut State, next: &mut State) -> bool
    requires fit { IsFit task.now }
    requires in_range { are_below (length task.now.ops) ops.now ≡ true }
    requires of_task { state.old.facts ≡ length task.now.facts }
    requires next_of_task { next.old.facts ≡ length task.now.facts }
    ensures runs { result ≡ steps.runs task.now (has state.old.hold) ops.now }
    ensures end { IsTrue result → state.new ≡ fact_set_of (length task.now.facts) (steps.holding_after task.now (has state.old.hold) ops.now) }
{
    for op in ops {
        if !applicable(task, state, *op) {
            return false;
        }
        step_into(task, state, *op, next);
        mem::swap(state, next);
    }
    state.ascends();
    true
}

/// The state at the end of the operators, from the start; none where one of them isn't applicable in its turn.
pub fn run_ops(alloc: Global, task: &Task, ops: &Row<u32>) -> Result<Option<State>, Memory>
    requires fit { IsFit task.now }
    requires in_range { are_below (length task.now.ops) ops.now ≡ true }
    ensures { IfOk result (λ end. end ≡ state_at_end task.now ops.now) }
{
    let mut state = start(alloc, task)?;
    let mut next = State::empty(alloc, task.facts.len() as u32)?;
    let runs = run_on(task, ops.slice(), &mut state, &mut next);
    drop(next);
    Ok(runs.then_some(state))
}
