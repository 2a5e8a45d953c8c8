ghost use Rattle.std.specs.Prelude.{◌≡◌, ◌++◌, not, true};
ghost use Rattle.std.specs.List.{list_all};
ghost use Rattle.kp_base.specs.Clashes.{are_exclusive, are_compatible};
ghost use Rattle.kp_clash_exclusive.specs.Paired.{is_pair};

use crate::Pairs;
use kp_base::{Action, Effect, Lit, LitSet};

/// Whether the literals are never true together.
pub fn are_exclusive(pairs: &Pairs, one: Lit, other: Lit) -> bool
    ensures { result ≡ are_exclusive (is_pair pairs.now) one other }
{
    one.negated() == other || (one.positive && other.positive && pairs.has(one.atom, other.atom))
}

// Whether the literal may be true together with each of these.
fn excludes_none(pairs: &Pairs, lit: Lit, pre: &[Lit], cond: &[Lit], other: &[Lit]) -> bool
    ensures { result ≡ list_all (λ l. not (are_exclusive (is_pair pairs.now) lit l)) (pre.now ++ (cond.now ++ other.now)) }
{
    pre.iter()
        .chain(cond.iter().chain(other.iter()))
        .all(|l| !are_exclusive(pairs, lit, *l))
}

// Whether no two of the literals are never true together.
fn all_compatible(pairs: &Pairs, pre: &[Lit], cond: &[Lit], other: &[Lit]) -> bool
    ensures { result ≡ are_compatible (is_pair pairs.now) (pre.now ++ (cond.now ++ other.now)) }
{
    pre.iter()
        .chain(cond.iter().chain(other.iter()))
        .all(|l| excludes_none(pairs, *l, pre, cond, other))
}

// Whether each literal of the last list may be true together with each of all three.
fn others_exclude_none(pairs: &Pairs, pre: &[Lit], cond: &[Lit], other: &[Lit]) -> bool
    ensures { result ≡ list_all (λ k. list_all (λ l. not (are_exclusive (is_pair pairs.now) k l)) (pre.now ++ (cond.now ++ other.now))) other.now }
{
    other
        .iter()
        .all(|l| excludes_none(pairs, *l, pre, cond, other))
}

/// Whether no two of the literals are never true together, where this is known of the first two lists.
pub fn stay_compatible(pairs: &Pairs, pre: &[Lit], cond: &[Lit], other: &[Lit]) -> bool
    requires { are_compatible (is_pair pairs.now) (pre.now ++ cond.now) ≡ true }
    ensures { result ≡ are_compatible (is_pair pairs.now) (pre.now ++ (cond.now ++ other.now)) }
{
    others_exclude_none(pairs, pre, cond, other)
}

/// Whether no two literals of the precondition are never true together.
pub fn pre_compatible(pairs: &Pairs, action: &Action) -> bool
    ensures { result ≡ are_compatible (is_pair pairs.now) action.now.pre }
{
    stay_compatible(pairs, &[], &[], action.pre.slice())
}

/// Whether the effect may fire, where no two literals of the precondition are never true together.
pub fn may_fire(pairs: &Pairs, action: &Action, effect: &Effect) -> bool
    requires { are_compatible (is_pair pairs.now) action.now.pre ≡ true }
    ensures { result ≡ are_compatible (is_pair pairs.now) (action.now.pre ++ effect.now.cond) }
{
    stay_compatible(pairs, action.pre.slice(), &[], effect.cond.slice())
}

/// Whether no two literals of the three sets are never true together.
pub fn are_compatible(pairs: &Pairs, pre: &LitSet, cond: &LitSet, other: &LitSet) -> bool
    ensures { result ≡ are_compatible (is_pair pairs.now) (pre.now ++ (cond.now ++ other.now)) }
{
    all_compatible(pairs, pre.slice(), cond.slice(), other.slice())
}
