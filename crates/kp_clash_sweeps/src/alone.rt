//! Removes pairs that an effect breaks alone.
ghost use Rattle.std.specs.Prelude.{◌≡◌, ◌++◌, ℕ, true, false, [], ◌∷◌};
ghost use Rattle.kp_base.specs.Clashes.{are_compatible};
ghost use Rattle.kp_base.specs.Lists.{Member};
ghost use Rattle.kp_clash_exclusive.specs.Paired.{is_pair};
ghost use Rattle.kp_clash_exclusive.specs.Removed.{Shrinks};
ghost use Rattle.kp_clash_exclusive.specs.Left.{Notes};

use crate::breaking::breaks;
use crate::outline::turns;
use crate::touched::Touched;
use kp_base::{Action, AtomId, Effect};
use kp_clash_exclusive::{Pairs, Tables, likely};

// Removes the pair of the effect's atom and this one, if the effect breaks it alone.
fn clear_at(
    pairs: &mut Pairs,
    touched: &mut Touched,
    action: &Action,
    tables: &Tables,
    effect: &Effect,
    q: AtomId,
)
    requires of_action { Member action.now.effects effect.now }
    requires noted { Notes tables.now action.now }
    requires different { (p : ℕ) → is_pair pairs.old p p ≡ false }
    requires adds { effect.now.result.positive ≡ true }
    requires compatible { are_compatible (is_pair pairs.old) (action.now.pre ++ effect.now.cond) ≡ true }
    ensures { Shrinks (action.now ∷ []) pairs.old pairs.new }
{
    if breaks(pairs, action, tables, effect, q) {
        pairs.remove(effect.result.atom, q);
        touched.note(pairs, effect.result.atom, q);
    }
}

// Removes the pairs with the 64 atoms from 64 k on that the effect breaks alone.
fn clear_word(
    pairs: &mut Pairs,
    touched: &mut Touched,
    action: &Action,
    tables: &Tables,
    effect: &Effect,
    k: u32,
)
    requires of_action { Member action.now.effects effect.now }
    requires noted { Notes tables.now action.now }
    requires different { (p : ℕ) → is_pair pairs.old p p ≡ false }
    requires adds { effect.now.result.positive ≡ true }
    requires compatible { are_compatible (is_pair pairs.old) (action.now.pre ++ effect.now.cond) ≡ true }
    ensures { Shrinks (action.now ∷ []) pairs.old pairs.new }
{
    if k >= 1024 {
        return;
    }
    let mut word = likely(pairs, action, &tables.sure, &tables.left, effect, k);
    for _ in 0..64 {
        if word == 0 {
            return;
        }
        let q = AtomId(k.wrapping_mul(64).wrapping_add(word.trailing_zeros()));
        clear_at(pairs, touched, action, tables, effect, q);
        word &= word.wrapping_sub(1);
    }
}

// The same with the atoms of a block.
fn clear_block(
    pairs: &mut Pairs,
    touched: &mut Touched,
    action: &Action,
    tables: &Tables,
    effect: &Effect,
    block: u32,
)
    requires of_action { Member action.now.effects effect.now }
    requires noted { Notes tables.now action.now }
    requires adds { effect.now.result.positive ≡ true }
    requires compatible { are_compatible (is_pair pairs.old) (action.now.pre ++ effect.now.cond) ≡ true }
    ensures { Shrinks (action.now ∷ []) pairs.old pairs.new }
{
    for turn in 0..turns(pairs.atoms()) {
        let k = turn.wrapping_mul(64).wrapping_add(block);
        clear_word(pairs, touched, action, tables, effect, k);
    }
}

/// Removes the pairs that the effect breaks alone, with those atoms that its conditions excluded before.
pub(crate) fn clear_alone(
    pairs: &mut Pairs,
    last: &Touched,
    next: &mut Touched,
    action: &Action,
    tables: &Tables,
    effect: &Effect,
)
    requires of_action { Member action.now.effects effect.now }
    requires noted { Notes tables.now action.now }
    requires adds { effect.now.result.positive ≡ true }
    requires compatible { are_compatible (is_pair pairs.old) (action.now.pre ++ effect.now.cond) ≡ true }
    ensures { Shrinks (action.now ∷ []) pairs.old pairs.new }
{
    let pre = action.pre.slice();
    let cond = effect.cond.slice();
    let outline = &next.outline;
    let mut blocks = outline.pairs_of(effect.result.atom)
        & outline.left_by(pre)
        & outline.left_by(cond)
        & last.freed(pre, cond);
    for _ in 0..64 {
        if blocks == 0 {
            return;
        }
        clear_block(pairs, next, action, tables, effect, blocks.trailing_zeros());
        blocks &= blocks.wrapping_sub(1);
    }
}
