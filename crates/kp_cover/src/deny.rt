//! Whether a literal of each tag can be denied. It takes a test of consistency for each literal, and but the closure of
//! the empty tag.
ghost use Rattle.std.specs.Prelude.{◌≡◌, ◌↔◌, ◌≤◌, ◌-◌, ◌^◌, [], drop, length, min, IsTrue, IfOk};
ghost use Rattle.std.specs.List.{list_any};
ghost use Rattle.kp_base.specs.LitSet.{is_within};
ghost use Rattle.kp_primes.specs.Held.{formula};
ghost use Rattle.kp_cover.specs.Covered.{all_inside, ways, AreFew};
ghost use Rattle.kp_cover.specs.Valid.{AreValidTags};

use crate::product::with_one;
use kp_base::{LitSet, Memory};
use kp_primes::Primes;
use std::alloc::Global;

// Whether each initial state in which some literals are known satisfies one of the tags from a place on.
fn all_inside(
    alloc: Global,
    primes: &Primes,
    tags: &[LitSet],
    known: &LitSet,
    at: usize,
) -> Result<bool, Memory>
    requires at { at ≤ length tags.now }
    ensures { IfOk result (λ b. b ≡ all_inside primes.now.clauses known.now (drop at tags.now)) }
{
    if at == tags.len() {
        return Ok(false);
    }
    let lits = tags[at].slice();
    for l in lits {
        if let Some(more) = with_one(alloc, primes, known, l.negated())? {
            if !all_inside(alloc, primes, tags, &more, at + 1)? {
                return Ok(false);
            }
        }
    }
    Ok(true)
}

/// Whether there is no consistent way to deny a literal of each tag.
pub(crate) fn none_outside(alloc: Global, primes: &Primes, tags: &[LitSet]) -> Result<bool, Memory>
    ensures { IfOk result (λ b. b ≡ all_inside primes.now.clauses [] tags.now) }
{
    let known = LitSet::new(alloc);
    let inside = all_inside(alloc, primes, tags, &known, 0)?;
    Ok(inside)
}

// Whether one of the tags has no literal but these.
fn is_one_within(tags: &[LitSet], known: &LitSet) -> bool
    ensures { result ≡ list_any (λ t. is_within t known.now) tags.now }
{
    tags.iter().any(|t| t.within(known))
}

// Whether one of the tags is always true.
fn is_one_always(alloc: Global, primes: &Primes, tags: &[LitSet]) -> Result<bool, Memory>
    ensures { IfOk result (λ b. IsTrue b → AreValidTags (formula primes.now) tags.now) }
{
    match primes.closure(alloc, &LitSet::new(alloc))? {
        Some(always) => Ok(is_one_within(tags, &always)),
        None => Ok(false),
    }
}

// How many ways there are to choose a literal of each tag, as far as a `usize` counts.
fn ways(tags: &[LitSet]) -> usize
    ensures { result ≡ min (ways tags.now) (2 ^ 64 - 1) }
{
    let mut ways: usize = 1;
    for tag in tags {
        ways = ways.saturating_mul(tag.slice().len());
    }
    ways
}

// Whether there are few ways to choose a literal of each tag, and few tags: one call stands within another for each.
fn are_few(tags: &[LitSet]) -> bool
    ensures { IsTrue result ↔ AreFew tags.now }
{
    tags.len() <= 1024 && ways(tags) <= 64
}

// Whether there is no consistent way to deny a literal of each of few tags.
fn none_of_few_outside(alloc: Global, primes: &Primes, tags: &[LitSet]) -> Result<bool, Memory>
    requires { AreFew tags.now }
    ensures { IfOk result (λ b. b ≡ all_inside primes.now.clauses [] tags.now) }
{
    let inside = none_outside(alloc, primes, tags)?;
    Ok(inside)
}

/// Whether it is soon told that each initial state satisfies one of the tags: there are few ways to deny a literal of
/// each, and none is consistent; or there are many, and one of the tags is always true.
pub(crate) fn are_soon_valid(
    alloc: Global,
    primes: &Primes,
    tags: &[LitSet],
) -> Result<bool, Memory>
    ensures { IfOk result (λ b. IsTrue b → AreValidTags (formula primes.now) tags.now) }
{
    let _whole = primes.clauses();
    if !are_few(tags) {
        let told = is_one_always(alloc, primes, tags)?;
        return Ok(told);
    }
    let inside = none_of_few_outside(alloc, primes, tags)?;
    Ok(inside)
}
