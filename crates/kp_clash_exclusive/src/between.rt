//! Between which places of an action the deletes of an atom stand.
ghost use Rattle.std.specs.Prelude.{◌≡◌, ◌≤◌, ◌<◌, ◌++◌, slice_index_or};
ghost use Rattle.kp_clash_exclusive.specs.Between.{IsBetween, AreBetween, Falls, Rises, DeletesFrom};
ghost use Rattle.kp_clash_exclusive.specs.Settled.{deletes_within};

use crate::within::deletes_by;
use kp_base::{Action, AtomId, Effect, Lit};

/// How many slots there are for atoms: each has that of its number modulo 4,096.
pub const SLOTS: usize = 4096;

// Makes the number at the slot at most this one.
fn lower(firsts: &mut [usize; SLOTS], slot: usize, place: usize)
    requires { slot < 4096 }
    ensures at { slice_index_or firsts.new slot 0 ≤ place }
    ensures falls { Falls firsts.old firsts.new }
{
    if place < firsts[slot] {
        firsts[slot] = place;
    }
}

// Makes the number at the slot more than this one.
fn raise(ends: &mut [usize; SLOTS], slot: usize, place: usize)
    requires slot { slot < 4096 }
    requires few { place < 18446744073709551615 }
    ensures at { place < slice_index_or ends.new slot 0 }
    ensures rises { Rises ends.old ends.new }
{
    if ends[slot] <= place {
        ends[slot] = place + 1;
    }
}

// Notes the place of an effect, if it is a delete.
fn note(firsts: &mut [usize; SLOTS], ends: &mut [usize; SLOTS], place: usize, effect: &Effect)
    requires { place < 18446744073709551615 }
    ensures here { IsBetween firsts.new ends.new place effect.now }
    ensures falls { Falls firsts.old firsts.new }
    ensures rises { Rises ends.old ends.new }
{
    if !effect.result.positive {
        let slot = effect.result.atom.0 as usize % SLOTS;
        lower(firsts, slot, place);
        raise(ends, slot, place);
    }
}

/// For each number modulo 4,096 the first place of a delete of an atom of that slot, and the place behind the last.
pub(crate) fn spans_of(effects: &[Effect]) -> ([usize; SLOTS], [usize; SLOTS])
    ensures { AreBetween result.0 result.1 effects.now }
{
    let mut firsts = [usize::MAX; SLOTS];
    let mut ends = [0usize; SLOTS];
    for place in 0..effects.len() {
        note(&mut firsts, &mut ends, place, &effects[place]);
    }
    (firsts, ends)
}

// Whether a delete of the atom has its condition within these literals, where all stand between two places.
fn deletes_between(
    action: &Action,
    from: usize,
    to: usize,
    q: AtomId,
    pre: &[Lit],
    cond: &[Lit],
    other: &[Lit],
) -> bool
    requires { DeletesFrom action.now.effects q.0 from to }
    ensures { result ≡ deletes_within action.now q.0 (pre.now ++ (cond.now ++ other.now)) }
{
    let effects = action.effects.slice();
    let end = if to < effects.len() {
        to
    } else {
        effects.len()
    };
    for place in from..end {
        if deletes_by(pre, cond, other, q, &effects[place]) {
            return true;
        }
    }
    false
}

/// Whether a delete of the atom has its condition within these literals, with a look at the places alone where one may
/// stand.
pub fn deletes_noted(
    action: &Action,
    firsts: &[usize; SLOTS],
    ends: &[usize; SLOTS],
    q: AtomId,
    pre: &[Lit],
    cond: &[Lit],
    other: &[Lit],
) -> bool
    requires { AreBetween firsts.now ends.now action.now.effects }
    ensures { result ≡ deletes_within action.now q.0 (pre.now ++ (cond.now ++ other.now)) }
{
    let slot = q.0 as usize % SLOTS;
    deletes_between(action, firsts[slot], ends[slot], q, pre, cond, other)
}
