//! Looks for a pair that doesn't stay.
ghost use Rattle.std.specs.Prelude.{◌≡◌, ◌<◌, ◌≤◌, ◌%◌, ◌++◌, ◌&&◌, [], ◌∷◌, ℕ, true, false, length};
ghost use Rattle.std.specs.Int.{bit_at};
ghost use Rattle.std.specs.List.{list_any};
ghost use Rattle.kp_base.specs.declared.ground.Action.{Action as ActionOf};
ghost use Rattle.kp_base.specs.Clashes.{are_compatible};
ghost use Rattle.kp_base.specs.Lists.{Member};
ghost use Rattle.kp_clash_exclusive.specs.Paired.{is_pair};
ghost use Rattle.kp_clash_exclusive.specs.Removed.{breaks, adds_pair, FindsAlone, FindsTogether, FindsOfEffect, FindsBroken};
ghost use Rattle.kp_clash_exclusive.specs.Left.{AreLeft, AreLone, Notes, FindsInWord};

use kp_base::{Action, AtomId, Effect, Ground};
use kp_bits::has_bit;
use kp_clash_exclusive::{
    Pairs, Tables, WORDS, all_join, atoms_alone, atoms_left, candidates, is_alone, is_small,
    may_add_pair, may_fire, pre_compatible, words_of,
};
use kp_clash_sweeps::{adds_pair, breaks};

// The same, where the bit of the atom is set in the word unless the effect surely doesn't.
fn breaks_at(
    pairs: &Pairs,
    action: &Action,
    tables: &Tables,
    effect: &Effect,
    word: u64,
    q: u32,
) -> bool
    requires noted { Notes tables.now action.now }
    requires different { (p : ℕ) → is_pair pairs.now p p ≡ false }
    requires adds { effect.now.result.positive ≡ true }
    requires compatible { are_compatible (is_pair pairs.now) (action.now.pre ++ effect.now.cond) ≡ true }
    requires candidate { breaks (is_pair pairs.now) action.now effect.now q ≡ true → bit_at word (q % 64) ≡ 1 }
    ensures { result ≡ breaks (is_pair pairs.now) action.now effect.now q }
{
    has_bit(word, q % 64) && breaks(pairs, action, tables, effect, AtomId(q))
}

// The other atom of the first pair that the effect breaks alone, among the 64 from 64 k on and from an atom on.
fn first_in_word(
    pairs: &Pairs,
    action: &Action,
    tables: &Tables,
    effect: &Effect,
    from: u32,
    k: u32,
) -> Option<AtomId>
    requires noted { Notes tables.now action.now }
    requires different { (p : ℕ) → is_pair pairs.now p p ≡ false }
    requires adds { effect.now.result.positive ≡ true }
    requires compatible { are_compatible (is_pair pairs.now) (action.now.pre ++ effect.now.cond) ≡ true }
    requires few { k < 1024 }
    ensures { FindsInWord (is_pair pairs.now) action.now effect.now from k result }
{
    let word = candidates(pairs, action, &tables.sure, effect, k);
    if word == 0 {
        return None;
    }
    let start = if from < k * 64 { k * 64 } else { from };
    for q in start..k * 64 + 64 {
        if breaks_at(pairs, action, tables, effect, word, q) {
            return Some(AtomId(q));
        }
    }
    None
}

// The other atom of the first pair, from an atom on, that the effect breaks alone.
fn next_alone(
    pairs: &Pairs,
    action: &Action,
    tables: &Tables,
    effect: &Effect,
    from: u32,
) -> Option<AtomId>
    requires noted { Notes tables.now action.now }
    requires compatible { are_compatible (is_pair pairs.now) (action.now.pre ++ effect.now.cond) ≡ true }
    ensures { FindsAlone (is_pair pairs.now) action.now effect.now from result }
{
    if !effect.result.positive {
        return None;
    }
    let words = words_of(pairs.atoms());
    for k in from / 64..words {
        if let Some(q) = first_in_word(pairs, action, tables, effect, from, k) {
            return Some(q);
        }
    }
    None
}

// The same, where the atoms are noted that the first effect's conditions leave.
fn adds_left(
    pairs: &Pairs,
    action: &Action,
    left: &[u64; WORDS],
    one: &Effect,
    other: &Effect,
) -> bool
    requires left { AreLeft (is_pair pairs.now) action.now.pre one.now.cond left.now }
    requires compatible { are_compatible (is_pair pairs.now) (action.now.pre ++ one.now.cond) ≡ true }
    ensures { result ≡ adds_pair (is_pair pairs.now) action.now one.now other.now }
{
    all_join(left, other.cond.slice()) && adds_pair(pairs, action, one, other)
}

// Whether the effects add an atom that is a pair with this one.
fn some_adds(pairs: &Pairs, effects: &[Effect], atom: AtomId) -> bool
    ensures { result ≡ list_any (λ e. e.result.positive && is_pair pairs.now atom.0 e.result.atom.0) effects.now }
{
    effects
        .iter()
        .any(|e| e.result.positive && pairs.has(atom, e.result.atom))
}

// The other atom of the first pair that the effect breaks together with another effect.
fn first_together(
    pairs: &Pairs,
    action: &Action,
    tables: &Tables,
    effect: &Effect,
) -> Option<AtomId>
    requires noted { Notes tables.now action.now }
    requires of_action { Member action.now.effects effect.now }
    requires compatible { are_compatible (is_pair pairs.now) (action.now.pre ++ effect.now.cond) ≡ true }
    ensures { FindsTogether (is_pair pairs.now) action.now effect.now result }
{
    if !may_add_pair(pairs, action, effect, &tables.added) {
        return None;
    }
    if !some_adds(pairs, action.effects.slice(), effect.result.atom) {
        return None;
    }
    let left = atoms_left(pairs, action, effect);
    for other in action.effects.slice() {
        if adds_left(pairs, action, &left, effect, other) {
            return Some(other.result.atom);
        }
    }
    None
}

// A pair that the effect breaks.
fn of_effect(
    pairs: &Pairs,
    alone: &[u64; WORDS],
    action: &Action,
    tables: &Tables,
    effect: &Effect,
) -> Option<(AtomId, AtomId)>
    requires alone { AreLone (is_pair pairs.now) alone.now }
    requires noted { Notes tables.now action.now }
    requires of_action { Member action.now.effects effect.now }
    requires compatible { are_compatible (is_pair pairs.now) action.now.pre ≡ true }
    ensures { FindsOfEffect (is_pair pairs.now) action.now effect.now result }
{
    if !effect.result.positive {
        return None;
    }
    if is_alone(alone, effect.result.atom) {
        return None;
    }
    if !may_fire(pairs, action, effect) {
        return None;
    }
    if let Some(q) = next_alone(pairs, action, tables, effect, 0) {
        return Some((effect.result.atom, q));
    }
    match first_together(pairs, action, tables, effect) {
        Some(q) => Some((effect.result.atom, q)),
        None => None,
    }
}

// A pair that an effect of the action breaks, by what is noted of the action.
fn of_effects(
    pairs: &Pairs,
    alone: &[u64; WORDS],
    action: &Action,
    tables: &Tables,
) -> Option<(AtomId, AtomId)>
    requires alone { AreLone (is_pair pairs.now) alone.now }
    requires noted { Notes tables.now action.now }
    requires compatible { are_compatible (is_pair pairs.now) action.now.pre ≡ true }
    ensures { FindsBroken (is_pair pairs.now) (action.now ∷ []) result }
{
    for effect in action.effects.slice() {
        if let Some(found) = of_effect(pairs, alone, action, tables, effect) {
            return Some(found);
        }
    }
    None
}

// A pair that an effect of the action breaks.
fn of_action(
    pairs: &Pairs,
    alone: &[u64; WORDS],
    any: &Tables,
    action: &Action,
) -> Option<(AtomId, AtomId)>
    requires alone { AreLone (is_pair pairs.now) alone.now }
    requires any { (a : ActionOf) → length a.effects ≤ 8 → Notes any.now a }
    ensures { FindsBroken (is_pair pairs.now) (action.now ∷ []) result }
{
    if !pre_compatible(pairs, action) {
        return None;
    }
    if is_small(action) {
        of_effects(pairs, alone, action, any)
    } else {
        let tables = Tables::of(pairs, action);
        of_effects(pairs, alone, action, &tables)
    }
}

/// A pair that doesn't stay, if there is one.
pub(crate) fn broken(ground: &Ground, pairs: &Pairs) -> Option<(AtomId, AtomId)>
    ensures { FindsBroken (is_pair pairs.now) ground.now.actions result }
{
    let any = Tables::any();
    let alone = atoms_alone(pairs);
    for action in ground.actions.slice() {
        if let Some(found) = of_action(pairs, &alone, &any, action) {
            return Some(found);
        }
    }
    None
}
