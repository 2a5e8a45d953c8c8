//! The step of an operator.
ghost use Rattle.std.specs.Prelude.{◌≡◌, ◌<◌, ◌&&◌, ◌||◌, ℕ, true, false, not, length, nat_eq, slice_get};
ghost use Rattle.std.specs.List.{list_all};
ghost use Rattle.kp_classic.specs.Fits.{fits_effect, IsFit};
ghost use Rattle.kp_classic.specs.States.{has, fact_set_of};
ghost use Rattle.kp_classic.specs.Steps as steps;

use crate::conds::are_met;
use crate::{OpEffect, State, Task};

// Deletes the effect's fact from the next state, where the effect fires and deletes.
fn delete_one(effect: &OpEffect, state: &State, next: &mut State)
    requires fit { fits_effect state.now.facts effect.now ≡ true }
    requires same { next.old.facts ≡ state.now.facts }
    ensures facts { next.new.facts ≡ next.old.facts }
    ensures hold { (f : ℕ) → f < state.now.facts → has next.new.hold f ≡ (has next.old.hold f && not (not effect.now.adds && (nat_eq f effect.now.fact && steps.meets effect.now.cond (has state.now.hold)))) }
{
    if !effect.adds && are_met(&effect.cond, state) {
        next.delete(effect.fact);
    }
}

// Adds the effect's fact to the next state, where the effect fires and adds.
fn add_one(effect: &OpEffect, state: &State, next: &mut State)
    requires fit { fits_effect state.now.facts effect.now ≡ true }
    requires same { next.old.facts ≡ state.now.facts }
    ensures facts { next.new.facts ≡ next.old.facts }
    ensures hold { (f : ℕ) → f < state.now.facts → has next.new.hold f ≡ (effect.now.adds && (nat_eq f effect.now.fact && steps.meets effect.now.cond (has state.now.hold)) || has next.old.hold f) }
{
    if effect.adds && are_met(&effect.cond, state) {
        next.add(effect.fact);
    }
}

// Deletes from the next state what fires.
fn delete_all(effects: &[OpEffect], state: &State, next: &mut State)
    requires fit { list_all (fits_effect state.now.facts) effects.now ≡ true }
    requires same { next.old.facts ≡ state.now.facts }
    ensures facts { next.new.facts ≡ next.old.facts }
    ensures hold { (f : ℕ) → f < state.now.facts → has next.new.hold f ≡ (has next.old.hold f && not (steps.fires effects.now (has state.now.hold) false f)) }
{
    for effect in effects {
        delete_one(effect, state, next);
    }
}

// Adds to the next state what fires.
fn add_all(effects: &[OpEffect], state: &State, next: &mut State)
    requires fit { list_all (fits_effect state.now.facts) effects.now ≡ true }
    requires same { next.old.facts ≡ state.now.facts }
    ensures facts { next.new.facts ≡ next.old.facts }
    ensures hold { (f : ℕ) → f < state.now.facts → has next.new.hold f ≡ (steps.fires effects.now (has state.now.hold) true f || has next.old.hold f) }
{
    for effect in effects {
        add_one(effect, state, next);
    }
}

/// Makes the other state the one after the operator. The conditions are read in the first state; what was in the other is lost.
pub fn step_into(task: &Task, state: &State, op: u32, next: &mut State)
    requires fit { IsFit task.now }
    requires of_task { state.now.facts ≡ length task.now.facts }
    requires next_of_task { next.old.facts ≡ length task.now.facts }
    requires in_range { op < length task.now.ops }
    ensures { next.new ≡ fact_set_of (length task.now.facts) (steps.next (slice_get task.now.ops op) (has state.now.hold)) }
{
    let effects = task.ops.at(op as usize).effects.slice();
    next.copy_from(state);
    delete_all(effects, state, next);
    add_all(effects, state, next);
    next.ascends();
}
