//! Removes pairs that don't stay, in walks over the actions.
ghost use Rattle.std.specs.Prelude.{◌≡◌, ◌≤◌, true, [], ◌∷◌, length};
ghost use Rattle.kp_base.specs.declared.ground.Action.{Action as ActionOf};
ghost use Rattle.kp_base.specs.Clashes.{are_compatible};
ghost use Rattle.kp_base.specs.Lists.{Member};
ghost use Rattle.kp_clash_exclusive.specs.Paired.{is_pair};
ghost use Rattle.kp_clash_exclusive.specs.Removed.{Shrinks};
ghost use Rattle.kp_clash_exclusive.specs.Left.{Notes};

use crate::alone::clear_alone;
use crate::asking::Asking;
use crate::together::{clear_compatible, clear_partners, clear_together};
use crate::touched::Touched;
use kp_base::{Action, Effect, Ground};
use kp_clash_exclusive::{Pairs, Tables, is_small, may_fire, pre_compatible};

// Removes the pairs that the effect breaks, where it has a condition on an atom of the last pairs that were removed.
fn clear_effect(
    pairs: &mut Pairs,
    last: &Touched,
    next: &mut Touched,
    asking: &Asking,
    action: &Action,
    tables: &Tables,
    effect: &Effect,
)
    requires noted { Notes tables.now action.now }
    requires of_action { Member action.now.effects effect.now }
    requires compatible { are_compatible (is_pair pairs.old) action.now.pre ≡ true }
    ensures { Shrinks (action.now ∷ []) pairs.old pairs.new }
{
    if !effect.result.positive {
        return;
    }
    if !is_paired(next, effect) {
        return;
    }
    if !last.meets(action.pre.slice()) && !last.meets(effect.cond.slice()) {
        return;
    }
    if !may_fire(pairs, action, effect) {
        return;
    }
    clear_alone(pairs, last, next, action, tables, effect);
    if is_small(action) {
        clear_together(pairs, next, action, tables, effect);
    } else if last.is_whole(action.pre.slice(), effect.cond.slice()) {
        clear_compatible(pairs, next, asking, action, tables, effect);
    } else {
        clear_partners(pairs, last, next, asking, action, tables, effect);
    }
}

// Whether the effect adds an atom of a pair.
fn is_paired(next: &Touched, effect: &Effect) -> bool {
    effect.result.positive && next.outline.pairs_of(effect.result.atom) != 0
}

// Whether the action has an effect that is to be looked at.
fn is_met(last: &Touched, next: &Touched, action: &Action) -> bool {
    let whole = last.meets(action.pre.slice());
    action.effects.slice().iter().any(|e| is_paired(next, e)
        && (whole || last.meets(e.cond.slice())))
}

// Removes the pairs that an effect of the action breaks, by what is noted of the action.
fn clear_effects(
    pairs: &mut Pairs,
    last: &Touched,
    next: &mut Touched,
    asking: &Asking,
    action: &Action,
    tables: &Tables,
)
    requires noted { Notes tables.now action.now }
    requires compatible { are_compatible (is_pair pairs.old) action.now.pre ≡ true }
    ensures { Shrinks (action.now ∷ []) pairs.old pairs.new }
{
    for effect in action.effects.slice() {
        clear_effect(pairs, last, next, asking, action, tables, effect);
    }
}

// The same of an action that isn't small.
fn clear_large(
    pairs: &mut Pairs,
    last: &Touched,
    next: &mut Touched,
    asking: &mut Asking,
    action: &Action,
)
    requires { are_compatible (is_pair pairs.old) action.now.pre ≡ true }
    ensures { Shrinks (action.now ∷ []) pairs.old pairs.new }
{
    let tables = Tables::of(pairs, action);
    asking.fill(action);
    clear_effects(pairs, last, next, asking, action, &tables);
    asking.empty(action);
}

// Removes the pairs that an effect of the action breaks.
fn clear_action(
    pairs: &mut Pairs,
    any: &Tables,
    last: &Touched,
    next: &mut Touched,
    asking: &mut Asking,
    action: &Action,
)
    requires { (a : ActionOf) → length a.effects ≤ 8 → Notes any.now a }
    ensures { Shrinks (action.now ∷ []) pairs.old pairs.new }
{
    if !is_met(last, next, action) {
        return;
    }
    if !pre_compatible(pairs, action) {
        return;
    }
    if is_small(action) {
        clear_effects(pairs, last, next, asking, action, any);
    } else {
        clear_large(pairs, last, next, asking, action);
    }
}

// Removes pairs that don't stay now that the last ones are gone, in one walk over the actions.
fn sweep(
    ground: &Ground,
    pairs: &mut Pairs,
    any: &Tables,
    last: &Touched,
    next: &mut Touched,
    asking: &mut Asking,
)
    requires { (a : ActionOf) → length a.effects ≤ 8 → Notes any.now a }
    ensures { Shrinks ground.now.actions pairs.old pairs.new }
{
    next.outline.follow(&last.outline);
    for action in ground.actions.slice() {
        clear_action(pairs, any, last, next, asking, action);
    }
}

// Two such walks, the second for the pairs that the first removes.
fn sweep_twice(
    ground: &Ground,
    pairs: &mut Pairs,
    any: &Tables,
    last: &mut Touched,
    next: &mut Touched,
    asking: &mut Asking,
)
    requires { (a : ActionOf) → length a.effects ≤ 8 → Notes any.now a }
    ensures { Shrinks ground.now.actions pairs.old pairs.new }
{
    sweep(ground, pairs, any, last, next, asking);
    last.clear();
    sweep(ground, pairs, any, next, last, asking);
    next.clear();
}

/// Removes pairs that don't stay, as long as the last ones that were removed may have held up others. It need not remove
/// all: what is left over is found by `broken`.
pub fn sweep_on(
    ground: &Ground,
    pairs: &mut Pairs,
    last: &mut Touched,
    next: &mut Touched,
    asking: &mut Asking,
)
    ensures { Shrinks ground.now.actions pairs.old pairs.new }
{
    let any = Tables::any();
    last.outline.fill(pairs);
    for _ in 0..u32::MAX {
        if !last.is_some() {
            return;
        }
        sweep_twice(ground, pairs, &any, last, next, asking);
    }
}
