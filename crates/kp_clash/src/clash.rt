ghost use Rattle.std.specs.Prelude.{◌≡◌, ◌≤◌, ◌<◌, ℕ, true, List, Some, None, length, slice_get, IfOk, IfErr};
ghost use Rattle.std.specs.List.{position_from};
ghost use Rattle.kp_base.specs.declared.ground.Action.{Action as ActionOf};
ghost use Rattle.kp_base.specs.declared.ground.Effect.{Effect as EffectOf};
ghost use Rattle.kp_base.specs.Clashes.{HasNoClash, IsFirstClash};
ghost use Rattle.kp_base.specs.Counted.{IsCounted};
ghost use Rattle.kp_clash_exclusive.specs.Paired.{is_pair};
ghost use Rattle.kp_clash.specs.Searching.{all_noted, clash_together, found_at, keep, best_from, first_from};

use crate::deleted::{all_slots, deletes_some, may_be_deleted, slots_of_deletes};
use kp_base::{Action, ClashAt, Effect, Ground};
use kp_clash_exclusive::{Pairs, SLOTS, are_compatible};

// Whether the effects are an add and a delete of one atom, under conditions that may hold together.
fn clash_together(pairs: &Pairs, action: &Action, add: &Effect, delete: &Effect) -> bool
    ensures { result ≡ clash_together (is_pair pairs.now) action.now add.now delete.now }
{
    add.result.negated() == delete.result
        && are_compatible(pairs, &action.pre, &add.cond, &delete.cond)
}

// The place of the first effect that clashes with an add.
fn first_delete(pairs: &Pairs, action: &Action, add: &Effect) -> Option<u32>
    requires { length action.now.effects ≤ 4294967295 }
    ensures { result ≡ position_from (clash_together (is_pair pairs.now) action.now add.now) 0 action.now.effects }
{
    let mut place = 0u32;
    'effects: for effect in action.effects.slice() {
        if clash_together(pairs, action, add, effect) {
            return Some(place);
        }
        place += 1;
    }
    None
}

// The first clash of an effect, if it adds.
fn found_at(
    number: u32,
    pairs: &Pairs,
    action: &Action,
    slots: &[bool; SLOTS],
    place: u32,
    effect: &Effect,
) -> Option<ClashAt>
    requires few { length action.now.effects ≤ 4294967295 }
    requires noted { all_noted slots.now action.now.effects ≡ true }
    ensures { result ≡ found_at (is_pair pairs.now) number action.now place effect.now }
{
    if !effect.result.positive {
        return None;
    }
    if !may_be_deleted(slots, effect.result.atom) {
        return None;
    }
    match first_delete(pairs, action, effect) {
        Some(delete) => Some(ClashAt {
            action: number,
            atom: effect.result.atom,
            add: place,
            delete,
        }),
        None => None,
    }
}

// What is first of what was found before and what is found now.
fn keep(first: Option<ClashAt>, found: Option<ClashAt>) -> Option<ClashAt>
    ensures { result ≡ keep first found }
{
    match (first, found) {
        (first, None) => first,
        (None, Some(found)) => Some(found),
        (Some(first), Some(found)) => {
            if found.atom.0 < first.atom.0 {
                Some(found)
            } else {
                Some(first)
            }
        }
    }
}

// The first clash of an action, where the slots of its deletes are marked.
fn best_by(number: u32, pairs: &Pairs, action: &Action, slots: &[bool; SLOTS]) -> Option<ClashAt>
    requires few { length action.now.effects ≤ 4294967295 }
    requires noted { all_noted slots.now action.now.effects ≡ true }
    ensures { result ≡ best_from (is_pair pairs.now) number action.now 0 action.now.effects None }
{
    let mut first = None;
    let mut place = 0u32;
    'effects: for effect in action.effects.slice() {
        first = keep(first, found_at(number, pairs, action, slots, place, effect));
        place += 1;
    }
    first
}

// The first clash of an action. One that deletes nothing has none; for one with few effects the slots that are all
// marked serve.
fn best(number: u32, pairs: &Pairs, any: &[bool; SLOTS], action: &Action) -> Option<ClashAt>
    requires few { length action.now.effects ≤ 4294967295 }
    requires any { (effects : List EffectOf) → all_noted any.now effects ≡ true }
    ensures { result ≡ best_from (is_pair pairs.now) number action.now 0 action.now.effects None }
{
    if !deletes_some(action.effects.slice()) {
        return None;
    }
    if action.effects.len() <= 8 {
        best_by(number, pairs, action, any)
    } else {
        let slots = slots_of_deletes(action.effects.slice());
        best_by(number, pairs, action, &slots)
    }
}

// The first clash of some actions.
fn search(actions: &[Action], pairs: &Pairs) -> Option<ClashAt>
    requires few { length actions.now ≤ 4294967295 }
    requires few_effects { (n : ℕ) (a : ActionOf) → slice_get actions.now n ≡ Some a → length a.effects < 2147483648 }
    ensures { result ≡ first_from (is_pair pairs.now) 0 actions.now }
{
    let any = all_slots();
    let mut number = 0u32;
    'actions: for action in actions {
        if let Some(clash) = best(number, pairs, &any, action) {
            return Some(clash);
        }
        number += 1;
    }
    None
}

/// Whether no action of a ground problem clashes where these pairs of atoms are never true together; else the first
/// clash: by action, then by atom, then by add, then by delete.
pub fn clash_test(ground: &Ground, pairs: &Pairs) -> Result<(), ClashAt>
    requires { IsCounted ground.now }
    ensures none { IfOk result (λ _. HasNoClash (is_pair pairs.now) ground.now) }
    ensures first { IfErr result (IsFirstClash (is_pair pairs.now) ground.now) }
{
    match search(ground.actions.slice(), pairs) {
        Some(clash) => Err(clash),
        None => Ok(()),
    }
}
