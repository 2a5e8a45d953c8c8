//! Conditions in a state.
ghost use Rattle.std.specs.Prelude.{◌≡◌, ◌<◌, ◌&&◌, true, not, length, slice_get};
ghost use Rattle.std.specs.List.{list_all};
ghost use Rattle.kp_classic.specs.Fits.{are_below, fits, IsFit};
ghost use Rattle.kp_classic.specs.States.{has};
ghost use Rattle.kp_classic.specs.Steps as steps;

use crate::{Conds, State, Task};

// Whether each of these facts holds.
fn all_hold(facts: &[u32], state: &State) -> bool
    requires { are_below state.now.facts facts.now ≡ true }
    ensures { result ≡ list_all (has state.now.hold) facts.now }
{
    for fact in facts {
        if !state.holds(*fact) {
            return false;
        }
    }
    true
}

// Whether none of these facts holds.
fn none_hold(facts: &[u32], state: &State) -> bool
    requires { are_below state.now.facts facts.now ≡ true }
    ensures { result ≡ list_all (λ f. not (has state.now.hold f)) facts.now }
{
    for fact in facts {
        if state.holds(*fact) {
            return false;
        }
    }
    true
}

/// Whether the conditions are met.
pub(crate) fn are_met(conds: &Conds, state: &State) -> bool
    requires { fits state.now.facts conds.now ≡ true }
    ensures { result ≡ steps.meets conds.now (has state.now.hold) }
{
    all_hold(conds.yes.slice(), state) && none_hold(conds.no.slice(), state)
}

/// Whether the state meets the goal.
pub fn meets(task: &Task, state: &State) -> bool
    requires fit { IsFit task.now }
    requires of_task { state.now.facts ≡ length task.now.facts }
    ensures { result ≡ steps.meets task.now.goal (has state.now.hold) }
{
    are_met(&task.goal, state)
}

/// Whether the operator's precondition is met.
pub fn applicable(task: &Task, state: &State, op: u32) -> bool
    requires fit { IsFit task.now }
    requires of_task { state.now.facts ≡ length task.now.facts }
    requires in_range { op < length task.now.ops }
    ensures { result ≡ steps.applicable (slice_get task.now.ops op) (has state.now.hold) }
{
    are_met(&task.ops.at(op as usize).pre, state)
}
