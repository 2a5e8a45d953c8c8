//! Resolving a new clause with prime implicates, and which resolvents are kept.

ghost use Rattle.std.specs.Prelude.{◌≡◌, ◌&&◌, false, not, cond, slice_get, OnOk, IfOk};
ghost use Rattle.std.specs.List.{list_any};
ghost use Rattle.kp_base.specs.Planning.{with_lit, is_tautology, negated};
ghost use Rattle.kp_base.specs.Steps.{has};
ghost use Rattle.kp_clauses.specs.Stored.{AreNeeded};
ghost use Rattle.kp_clauses.specs.Rests.{AreRests};
ghost use Rattle.kp_primes.specs.Placed.{places, met_one, met_at};
ghost use Rattle.kp_primes.specs.Included.{grown, is_spare, is_least, met, met_all};

use kp_base::{Lit, LitSet, Memory};
use kp_clauses::{Sieve, Store, has_lit, is_tautology, resolve};
use std::alloc::Global;

// A clause with one literal more.
fn add_lit(alloc: Global, c: &LitSet, lit: Lit) -> Result<LitSet, Memory>
    ensures { IfOk result (λ set. set ≡ with_lit lit c.now) }
{
    let mut set = c.copy(alloc)?;
    set.insert(lit)?;
    Ok(set)
}

// Whether some literal of a clause is in neither of two sets.
fn is_any_outside(c: &LitSet, a: &LitSet, b: &LitSet) -> bool
    ensures { result ≡ list_any (λ x. not (has a.now x) && not (has b.now x)) c.now }
{
    c.slice().iter().any(|x| !has_lit(a, *x) && !has_lit(b, *x))
}

// What is needed of a clause with one literal more.
fn needed_with(alloc: Global, store: &Store, c: &LitSet, lit: Lit) -> Result<LitSet, Memory>
    ensures { IfOk result (AreNeeded store.now (with_lit lit c.now)) }
{
    let with = add_lit(alloc, c, lit)?;
    store.needed(&with)
}

// Whether some literal of a clause may be left out: with the literal that is resolved on a new clause is within the
// others, and with the negation of that a prime implicate.
fn has_spare(
    alloc: Global,
    primes: &Store,
    news: &Store,
    lit: Lit,
    c: &LitSet,
) -> Result<bool, Memory>
    ensures { IfOk result (λ spare. spare ≡ list_any (is_spare primes.now news.now lit c.now) c.now) }
{
    let new = needed_with(alloc, news, c, lit)?;
    let old = needed_with(alloc, primes, c, lit.negated())?;
    Ok(is_any_outside(c, &new, &old))
}

// Keeps a resolvent that is no tautology, unless it has the literal, one that was kept or a prime implicate is within
// it, or a literal of it may be left out.
fn keep(
    alloc: Global,
    primes: &Store,
    news: &Store,
    fresh: &mut Sieve,
    c: LitSet,
    lit: Lit,
) -> Result<(), Memory>
    requires { is_tautology c ≡ false }
    ensures { OnOk result (fresh.new ≡ cond (is_least primes.now news.now lit c) (grown fresh.old c) fresh.old) }
{
    if fresh.subsumes(&c) || has_lit(&c, lit) || primes.subsumes(&c) {
        return Ok(());
    }
    if !has_spare(alloc, primes, news, lit, &c)? {
        fresh.push(c)?;
    }
    Ok(())
}

// Resolves a new clause with a prime implicate, and keeps what is new. Where what some prime implicate has beside the
// new clause is within this one, the resolvent holds that prime implicate, and isn't made.
#[tactic(auto, using(crate::proofs::Refusing::met_refused))]
fn meet(
    alloc: Global,
    primes: &Store,
    news: &Store,
    rests: &Sieve,
    fresh: &mut Sieve,
    e: &LitSet,
    p: &LitSet,
    lit: Lit,
) -> Result<(), Memory>
    requires { AreRests primes.now e.now lit rests.now }
    ensures { OnOk result (fresh.new ≡ met primes.now news.now e.now lit p.now fresh.old) }
{
    if rests.subsumes(p) {
        return Ok(());
    }
    if has_lit(p, lit.negated()) {
        if let Some(r) = resolve(alloc, e, p, lit)? {
            keep(alloc, primes, news, fresh, r, lit)?;
        }
    }
    Ok(())
}

// Resolves a new clause with the prime implicate at a place.
fn meet_one(
    alloc: Global,
    primes: &Store,
    news: &Store,
    rests: &Sieve,
    fresh: &mut Sieve,
    e: &LitSet,
    place: usize,
    lit: Lit,
) -> Result<(), Memory>
    requires { AreRests primes.now e.now lit rests.now }
    ensures { OnOk result (fresh.new ≡ met_one primes.now news.now e.now lit (slice_get primes.now place) fresh.old) }
{
    match primes.clauses().slice().get(place) {
        Some(p) => meet(alloc, primes, news, rests, fresh, e, p, lit),
        None => Ok(()),
    }
}

// Resolves a new clause with the prime implicates at these places.
fn meet_at(
    alloc: Global,
    primes: &Store,
    news: &Store,
    rests: &Sieve,
    fresh: &mut Sieve,
    e: &LitSet,
    at: &[usize],
    lit: Lit,
) -> Result<(), Memory>
    requires { AreRests primes.now e.now lit rests.now }
    ensures { OnOk result (fresh.new ≡ met_at primes.now news.now e.now lit at.now fresh.old) }
{
    for place in at {
        meet_one(alloc, primes, news, rests, fresh, e, *place, lit)?;
    }
    Ok(())
}

// Whether it is worth while to look at all prime implicates once before so many of them are resolved with a clause. What
// is short shares little with any of them, and then rests tell nothing.
fn are_many(e: &LitSet, at: &[usize], primes: &Store) -> bool {
    e.slice().len() > 4 && at.len() > 8 && at.len() > primes.clauses().len() / 256
}

// What prime implicates have beside a new clause without the literal; nothing where few are resolved with it.
#[tactic(auto, using(crate::proofs::Refusing::no_rests))]
fn rests_at(
    alloc: Global,
    primes: &Store,
    e: &LitSet,
    at: &[usize],
    lit: Lit,
) -> Result<Sieve, Memory>
    ensures { IfOk result (AreRests primes.now e.now lit) }
{
    if are_many(e, at, primes) {
        return primes.rests(e, lit);
    }
    Ok(Sieve::new(alloc))
}

/// Resolves a new clause with all prime implicates, where only these have the literal's negation.
#[tactic(auto, using(crate::proofs::Placing::met_places))]
pub fn meet_all(
    alloc: Global,
    primes: &Store,
    news: &Store,
    fresh: &mut Sieve,
    e: &LitSet,
    at: &[usize],
    lit: Lit,
) -> Result<(), Memory>
    requires { at.now ≡ places (negated lit) 0 primes.now }
    ensures { OnOk result (fresh.new ≡ met_all primes.now news.now e.now lit primes.now fresh.old) }
{
    let rests = rests_at(alloc, primes, e, at, lit)?;
    meet_at(alloc, primes, news, &rests, fresh, e, at, lit)?;
    Ok(())
}
