//! Whether an effect breaks a pair, alone or together with another effect.
ghost use Rattle.std.specs.Prelude.{◌≡◌, ◌++◌, ◌||◌, ℕ, true, false};
ghost use Rattle.std.specs.List.{list_any};
ghost use Rattle.kp_base.specs.Clashes.{are_exclusive, are_compatible};
ghost use Rattle.kp_base.specs.Exclusive.{firing_with};
ghost use Rattle.kp_base.specs.Lit.{positive};
ghost use Rattle.kp_clash_exclusive.specs.Paired.{is_pair};
ghost use Rattle.kp_clash_exclusive.specs.Settled.{deletes_within};
ghost use Rattle.kp_clash_exclusive.specs.Removed.{breaks, adds_pair};
ghost use Rattle.kp_clash_exclusive.specs.Left.{Notes, all_asked};

use kp_base::{Action, AtomId, Effect, Lit};
use kp_clash_exclusive::{
    Pairs, Tables, WORDS, are_exclusive, deletes_noted, holding, may_exclude, stay_compatible,
};

// Whether some literal is never true together with the atom.
fn excludes(pairs: &Pairs, lits: &[Lit], atom: AtomId) -> bool
    ensures { result ≡ list_any (λ l. are_exclusive (is_pair pairs.now) l (positive atom.0)) lits.now }
{
    lits.iter().any(|l| are_exclusive(pairs, *l, holding(atom)))
}

// Whether a literal of the precondition does. The literals of a short one are looked through at once.
fn pre_excludes(pairs: &Pairs, action: &Action, asked: &[u64; WORDS], atom: AtomId) -> bool
    requires { all_asked asked.now action.now.pre ≡ true }
    ensures { result ≡ list_any (λ l. are_exclusive (is_pair pairs.now) l (positive atom.0)) action.now.pre }
{
    let pre = action.pre.slice();
    if pre.len() <= 8 {
        return excludes(pairs, pre, atom);
    }
    may_exclude(pairs, action, asked, atom) && excludes(pairs, pre, atom)
}

// Whether a literal excludes the atom, or a delete of it comes with the effect.
fn is_against(pairs: &Pairs, action: &Action, tables: &Tables, effect: &Effect, q: AtomId) -> bool
    requires { Notes tables.now action.now }
    ensures { result ≡ (list_any (λ l. are_exclusive (is_pair pairs.now) l (positive q.0)) action.now.pre || (list_any (λ l. are_exclusive (is_pair pairs.now) l (positive q.0)) effect.now.cond || deletes_within action.now q.0 (firing_with action.now effect.now q.0))) }
{
    let pre = action.pre.slice();
    let cond = effect.cond.slice();
    let other = [holding(q)];
    pre_excludes(pairs, action, &tables.asked, q)
        || (excludes(pairs, cond, q)
            || deletes_noted(action, &tables.firsts, &tables.ends, q, pre, cond, &other))
}

/// Whether the effect, which may fire, adds one atom of a pair where the other may be true and stay.
pub fn breaks(pairs: &Pairs, action: &Action, tables: &Tables, effect: &Effect, q: AtomId) -> bool
    requires noted { Notes tables.now action.now }
    requires different { (p : ℕ) → is_pair pairs.now p p ≡ false }
    requires adds { effect.now.result.positive ≡ true }
    requires compatible { are_compatible (is_pair pairs.now) (action.now.pre ++ effect.now.cond) ≡ true }
    ensures { result ≡ breaks (is_pair pairs.now) action.now effect.now q.0 }
{
    pairs.has(effect.result.atom, q) && !is_against(pairs, action, tables, effect, q)
}

/// Whether the effects may add both atoms of a pair, where the first may fire.
pub fn adds_pair(pairs: &Pairs, action: &Action, one: &Effect, other: &Effect) -> bool
    requires { are_compatible (is_pair pairs.now) (action.now.pre ++ one.now.cond) ≡ true }
    ensures { result ≡ adds_pair (is_pair pairs.now) action.now one.now other.now }
{
    (one.result.positive
        && (other.result.positive && pairs.has(one.result.atom, other.result.atom)))
        && stay_compatible(
            pairs,
            action.pre.slice(),
            one.cond.slice(),
            other.cond.slice(),
        )
}
