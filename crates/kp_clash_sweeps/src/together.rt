//! Removes pairs that an effect breaks together with another.
ghost use Rattle.std.specs.Prelude.{◌≡◌, ◌++◌, true, [], ◌∷◌};
ghost use Rattle.kp_base.specs.Clashes.{are_compatible};
ghost use Rattle.kp_base.specs.Lists.{Member};
ghost use Rattle.kp_clash_exclusive.specs.Paired.{is_pair};
ghost use Rattle.kp_clash_exclusive.specs.Removed.{Shrinks};
ghost use Rattle.kp_clash_exclusive.specs.Left.{Notes};

use crate::asking::Asking;
use crate::breaking::adds_pair;
use crate::outline::turns;
use crate::touched::Touched;
use kp_base::{Action, AtomId, Effect, Lit};
use kp_clash_exclusive::{Pairs, Tables, left_by};

// Whether the effect may add an atom that is a pair with one that the action adds.
fn may_add(pairs: &Pairs, touched: &Touched, tables: &Tables, effect: &Effect) -> bool {
    let outline = &touched.outline;
    outline.meets(pairs, effect.result.atom, &tables.added, tables.blocks)
}

// Removes the pair whose atoms the two effects may add, and tells whether there was one.
fn clear_both(pairs: &mut Pairs, action: &Action, effect: &Effect, other: &Effect) -> bool
    requires one { Member action.now.effects effect.now }
    requires other { Member action.now.effects other.now }
    requires compatible { are_compatible (is_pair pairs.old) (action.now.pre ++ effect.now.cond) ≡ true }
    ensures { Shrinks (action.now ∷ []) pairs.old pairs.new }
{
    if adds_pair(pairs, action, effect, other) {
        pairs.remove(effect.result.atom, other.result.atom);
        true
    } else {
        false
    }
}

/// Removes the pairs that the effect breaks together with another effect.
pub(crate) fn clear_together(
    pairs: &mut Pairs,
    touched: &mut Touched,
    action: &Action,
    tables: &Tables,
    effect: &Effect,
)
    requires of_action { Member action.now.effects effect.now }
    requires noted { Notes tables.now action.now }
    requires compatible { are_compatible (is_pair pairs.old) (action.now.pre ++ effect.now.cond) ≡ true }
    ensures { Shrinks (action.now ∷ []) pairs.old pairs.new }
{
    let mut left = may_add(pairs, touched, tables, effect);
    for other in action.effects.slice() {
        if !left {
            return;
        }
        if clear_both(pairs, action, effect, other) {
            touched.note(pairs, effect.result.atom, other.result.atom);
            left = may_add(pairs, touched, tables, effect);
        }
    }
}

// The same, and notes the pair.
fn clear_one(
    pairs: &mut Pairs,
    touched: &mut Touched,
    action: &Action,
    effect: &Effect,
    other: &Effect,
)
    requires of_action { Member action.now.effects effect.now }
    requires other { Member action.now.effects other.now }
    requires compatible { are_compatible (is_pair pairs.old) (action.now.pre ++ effect.now.cond) ≡ true }
    ensures { Shrinks (action.now ∷ []) pairs.old pairs.new }
{
    if clear_both(pairs, action, effect, other) {
        touched.note(pairs, effect.result.atom, other.result.atom);
    }
}

// Removes the pair whose atoms the effect and the one at this place may add.
fn clear_place(
    pairs: &mut Pairs,
    touched: &mut Touched,
    action: &Action,
    effect: &Effect,
    place: usize,
)
    requires of_action { Member action.now.effects effect.now }
    requires compatible { are_compatible (is_pair pairs.old) (action.now.pre ++ effect.now.cond) ≡ true }
    ensures { Shrinks (action.now ∷ []) pairs.old pairs.new }
{
    let effects = action.effects.slice();
    if place < effects.len() {
        clear_one(pairs, touched, action, effect, &effects[place]);
    }
}

// Removes the pairs that the effect breaks together with those of a list from an item on.
fn clear_list(
    pairs: &mut Pairs,
    touched: &mut Touched,
    asking: &Asking,
    action: &Action,
    effect: &Effect,
    first: usize,
)
    requires of_action { Member action.now.effects effect.now }
    requires compatible { are_compatible (is_pair pairs.old) (action.now.pre ++ effect.now.cond) ≡ true }
    ensures { Shrinks (action.now ∷ []) pairs.old pairs.new }
{
    let mut item = first;
    for _ in 0..u32::MAX {
        match asking.at(item) {
            Some((place, next)) => {
                clear_place(pairs, touched, action, effect, place);
                item = next;
            }
            None => return,
        }
    }
}

// The same with those that have an atom among their conditions, of the 64 from 64 k on whose bits are set.
fn clear_asking_word(
    pairs: &mut Pairs,
    touched: &mut Touched,
    asking: &Asking,
    action: &Action,
    effect: &Effect,
    word: u64,
    k: u32,
)
    requires of_action { Member action.now.effects effect.now }
    requires compatible { are_compatible (is_pair pairs.old) (action.now.pre ++ effect.now.cond) ≡ true }
    ensures { Shrinks (action.now ∷ []) pairs.old pairs.new }
{
    let mut left = word;
    for _ in 0..64 {
        if left == 0 {
            return;
        }
        let atom = AtomId(k.wrapping_mul(64).wrapping_add(left.trailing_zeros()));
        clear_list(pairs, touched, asking, action, effect, asking.first(atom));
        left &= left.wrapping_sub(1);
    }
}

// The same for the atoms of a block of which the literal's atom was a pair.
fn clear_freed_block(
    pairs: &mut Pairs,
    last: &Touched,
    next: &mut Touched,
    asking: &Asking,
    action: &Action,
    effect: &Effect,
    lit: &Lit,
    block: u32,
)
    requires of_action { Member action.now.effects effect.now }
    requires compatible { are_compatible (is_pair pairs.old) (action.now.pre ++ effect.now.cond) ≡ true }
    ensures { Shrinks (action.now ∷ []) pairs.old pairs.new }
{
    for turn in 0..turns(pairs.atoms()) {
        let k = turn.wrapping_mul(64).wrapping_add(block);
        clear_asking_word(pairs, next, asking, action, effect, last.word(lit, k), k);
    }
}

// The same for all atoms of which the literal's atom was a pair.
fn clear_freed_by(
    pairs: &mut Pairs,
    last: &Touched,
    next: &mut Touched,
    asking: &Asking,
    action: &Action,
    effect: &Effect,
    lit: &Lit,
)
    requires of_action { Member action.now.effects effect.now }
    requires compatible { are_compatible (is_pair pairs.old) (action.now.pre ++ effect.now.cond) ≡ true }
    ensures { Shrinks (action.now ∷ []) pairs.old pairs.new }
{
    let mut blocks = last.blocks_of(lit);
    for _ in 0..64 {
        if blocks == 0 {
            return;
        }
        clear_freed_block(
            pairs,
            last,
            next,
            asking,
            action,
            effect,
            lit,
            blocks.trailing_zeros(),
        );
        blocks &= blocks.wrapping_sub(1);
    }
}

/// Removes pairs that the effect breaks together with those that its condition excluded before.
pub(crate) fn clear_partners(
    pairs: &mut Pairs,
    last: &Touched,
    next: &mut Touched,
    asking: &Asking,
    action: &Action,
    tables: &Tables,
    effect: &Effect,
)
    requires noted { Notes tables.now action.now }
    requires of_action { Member action.now.effects effect.now }
    requires compatible { are_compatible (is_pair pairs.old) (action.now.pre ++ effect.now.cond) ≡ true }
    ensures { Shrinks (action.now ∷ []) pairs.old pairs.new }
{
    if !may_add(pairs, next, tables, effect) {
        return;
    }
    for lit in effect.cond.slice() {
        clear_freed_by(pairs, last, next, asking, action, effect, lit);
    }
}

// Removes the pairs that the effect breaks together with those that have one of the atoms of a block among their
// conditions, as long as there are such pairs.
fn clear_left(
    pairs: &mut Pairs,
    touched: &mut Touched,
    asking: &Asking,
    action: &Action,
    tables: &Tables,
    effect: &Effect,
    block: u32,
)
    requires noted { Notes tables.now action.now }
    requires of_action { Member action.now.effects effect.now }
    requires compatible { are_compatible (is_pair pairs.old) (action.now.pre ++ effect.now.cond) ≡ true }
    ensures { Shrinks (action.now ∷ []) pairs.old pairs.new }
{
    for turn in 0..turns(pairs.atoms()) {
        let k = turn.wrapping_mul(64).wrapping_add(block);
        let word = if may_add(pairs, touched, tables, effect) {
            left_by(pairs, action, effect, k)
        } else {
            0
        };
        clear_asking_word(pairs, touched, asking, action, effect, word, k);
    }
}

/// Removes the pairs that the effect breaks together with another effect, of those that its conditions don't exclude.
pub(crate) fn clear_compatible(
    pairs: &mut Pairs,
    touched: &mut Touched,
    asking: &Asking,
    action: &Action,
    tables: &Tables,
    effect: &Effect,
)
    requires noted { Notes tables.now action.now }
    requires of_action { Member action.now.effects effect.now }
    requires compatible { are_compatible (is_pair pairs.old) (action.now.pre ++ effect.now.cond) ≡ true }
    ensures { Shrinks (action.now ∷ []) pairs.old pairs.new }
{
    if !may_add(pairs, touched, tables, effect) {
        return;
    }
    clear_list(pairs, touched, asking, action, effect, asking.first_free());
    let outline = &touched.outline;
    let mut blocks = outline.left_by(action.pre.slice()) & outline.left_by(effect.cond.slice());
    for _ in 0..64 {
        if blocks == 0 {
            return;
        }
        clear_left(
            pairs,
            touched,
            asking,
            action,
            tables,
            effect,
            blocks.trailing_zeros(),
        );
        blocks &= blocks.wrapping_sub(1);
    }
}
