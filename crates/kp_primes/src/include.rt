ghost use Rattle.std.specs.Prelude.{◌≡◌, true, false, List, [], ◌∷◌, ◌++◌, OnOk, IfOk};
ghost use Rattle.kp_base.specs.Planning.{IsAscending, is_tautology, Member, negated};
ghost use Rattle.kp_base.specs.Steps.{has};
ghost use Rattle.kp_base.specs.declared.lit.Lit.{Lit as Literal};
ghost use Rattle.kp_clauses.specs.Stored.{subsumed, with_all, are_apart};
ghost use Rattle.kp_primes.specs.Placed.{places, AreHolders};
ghost use Rattle.kp_primes.specs.Included.{spread, walked, Spreads, Steps, AreNew, Counts, Walks, Enters, idle, included};

use crate::holders::{Holders, are_held};
use crate::resolving::meet_all;
use kp_base::{Lit, LitSet, Memory};
use kp_clauses::{Sieve, Store, has_lit, is_tautology};
use std::alloc::Global;

/// What became of clauses that were put in.
#[derive(Clone, Copy)]
pub enum Entry {
    /// They are in.
    In,
    /// With them there are more prime implicates than the limit. The store may have none of the new ones, or all.
    Over,
}

// Whether a store has more clauses than the limit.
fn counted(store: &Store, limit: u32) -> Entry
    ensures { Counts store.now limit result }
{
    if store.clauses().len() > limit as usize {
        return Entry::Over;
    }
    Entry::In
}

// Resolves the new clauses that have a literal with all prime implicates. What is kept is put in later, so it may stop
// where that is more than the limit.
fn spread(
    alloc: Global,
    primes: &Store,
    news: &Store,
    fresh: &mut Sieve,
    at: &[usize],
    lit: Lit,
    limit: u32,
) -> Result<Entry, Memory>
    requires { at.now ≡ places (negated lit) 0 primes.now }
    ensures { IfOk result (Spreads primes.now news.now lit limit fresh.old fresh.new) }
{
    let clauses = news.clauses().slice();
    for e in clauses {
        if fresh.clauses().len() > limit as usize {
            return Ok(Entry::Over);
        }
        if has_lit(e, lit) {
            meet_all(alloc, primes, news, fresh, e, at, lit)?;
        }
    }
    Ok(Entry::In)
}

// Resolves the new clauses on a literal that each of them has, and puts in what is new.
fn step(
    alloc: Global,
    primes: &Store,
    holders: &Holders,
    news: &mut Store,
    lit: Lit,
    limit: u32,
) -> Result<Entry, Memory>
    requires held { AreHolders holders.now primes.now }
    requires there { (e : List Literal) → Member news.old e → has e lit ≡ true }
    ensures { IfOk result (Steps primes.now lit news.old limit news.new) }
{
    let at = holders.of(lit.negated());
    let mut fresh = Sieve::new(alloc);
    let entry = spread(alloc, primes, news, &mut fresh, at, lit, limit)?;
    match entry {
        Entry::Over => return Ok(Entry::Over),
        Entry::In => {}
    }
    news.merge(Store::from_sieve(alloc, fresh))?;
    Ok(Entry::In)
}

// Resolves the new clauses on each of these literals in turn. Their number never falls, and in the end all of them are
// put in; so it may stop where they are more than the limit.
fn walk(
    alloc: Global,
    primes: &Store,
    holders: &Holders,
    news: &mut Store,
    lits: &[Lit],
    limit: u32,
) -> Result<Entry, Memory>
    requires held { AreHolders holders.now primes.now }
    requires new { AreNew primes.now lits.now news.old }
    ensures { IfOk result (Walks primes.now lits.now news.old limit news.new) }
{
    for l in lits {
        if let Entry::Over = step(alloc, primes, holders, news, *l, limit)? {
            return Ok(Entry::Over);
        }
        if let Entry::Over = counted(news, limit) {
            return Ok(Entry::Over);
        }
    }
    Ok(Entry::In)
}

// Whether a clause brings nothing new.
fn is_idle(primes: &Store, c: &LitSet) -> bool
    ensures { result ≡ idle primes.now c.now }
{
    is_tautology(c) || primes.subsumes(c)
}

// Puts in new clauses that may be within prime implicates, which then go.
fn put_over(
    alloc: Global,
    primes: &mut Store,
    holders: &mut Holders,
    news: Store,
) -> Result<(), Memory>
    requires { (c : List Literal) → Member news c → subsumed primes.old c ≡ false }
    ensures all { OnOk result (primes.new ≡ with_all primes.old news) }
    ensures held { OnOk result (AreHolders holders.new primes.new) }
{
    primes.merge(news)?;
    let mut again = Holders::new(alloc);
    again.extend(primes.clauses().slice(), 0)?;
    *holders = again;
    Ok(())
}

// Puts in new clauses behind the prime implicates.
fn put_behind(primes: &mut Store, holders: &mut Holders, news: Store) -> Result<(), Memory>
    requires held { AreHolders holders.old primes.old }
    requires apart { are_apart (primes.old ++ news) ≡ true }
    ensures all { OnOk result (primes.new ≡ primes.old ++ news) }
    ensures held { OnOk result (AreHolders holders.new primes.new) }
{
    let first = primes.clauses().len();
    primes.join(news)?;
    holders.extend(primes.clauses().slice(), first)?;
    Ok(())
}

// Puts in new clauses.
fn put_in(
    alloc: Global,
    primes: &mut Store,
    holders: &mut Holders,
    news: Store,
) -> Result<(), Memory>
    requires held { AreHolders holders.old primes.old }
    requires free { (c : List Literal) → Member news c → subsumed primes.old c ≡ false }
    ensures all { OnOk result (primes.new ≡ with_all primes.old news) }
    ensures held { OnOk result (AreHolders holders.new primes.new) }
{
    let _apart = primes.clauses();
    let others = news.clauses();
    if are_held(primes, holders, others.slice()) {
        put_over(alloc, primes, holders, news)?;
    } else {
        put_behind(primes, holders, news)?;
    }
    Ok(())
}

// A store of one clause.
fn only(alloc: Global, c: &LitSet) -> Result<Store, Memory>
    ensures { IfOk result (λ s. s ≡ c.now ∷ []) }
{
    let mut news = Store::new(alloc);
    news.add(c.copy(alloc)?)?;
    Ok(news)
}

// Puts in a clause that brings something new.
fn include_new(
    alloc: Global,
    primes: &mut Store,
    holders: &mut Holders,
    c: &LitSet,
    limit: u32,
) -> Result<Entry, Memory>
    requires held { AreHolders holders.old primes.old }
    requires new { idle primes.now c.now ≡ false }
    ensures entry { IfOk result (Enters primes.old c.now limit primes.new) }
    ensures held { OnOk result (AreHolders holders.new primes.new) }
{
    let mut news = only(alloc, c)?;
    let entry = walk(alloc, primes, holders, &mut news, c.slice(), limit)?;
    match entry {
        Entry::Over => return Ok(Entry::Over),
        Entry::In => {}
    }
    put_in(alloc, primes, holders, news)?;
    Ok(counted(primes, limit))
}

/// Puts one clause more into a store of prime implicates: it is resolved, literal by literal, with those that have the
/// literal's negation (Kean and Tsiknis's incremental method). Stops where there are seen to be more new clauses than
/// the limit, or more that come of one literal. At `Memory` it may have any of its clauses and of the new ones, or none.
pub fn include(
    alloc: Global,
    primes: &mut Store,
    holders: &mut Holders,
    c: &LitSet,
    limit: u32,
) -> Result<Entry, Memory>
    requires { AreHolders holders.old primes.old }
    ensures entry { IfOk result (Enters primes.old c.now limit primes.new) }
    ensures held { OnOk result (AreHolders holders.new primes.new) }
    ensures ascending { OnOk result (IsAscending c.now) }
{
    let _ascending = c.slice();
    if is_idle(primes, c) {
        return Ok(counted(primes, limit));
    }
    let entry = include_new(alloc, primes, holders, c, limit)?;
    Ok(entry)
}

// The clause of one literal.
fn unit_clause(alloc: Global, lit: Lit) -> Result<LitSet, Memory>
    ensures { IfOk result (λ c. c ≡ lit ∷ []) }
{
    let mut unit = LitSet::new(alloc);
    unit.insert(lit)?;
    Ok(unit)
}

// What comes of the clause of one literal.
fn met_by_unit(
    alloc: Global,
    primes: &Store,
    news: &Store,
    unit: &LitSet,
    at: &[usize],
    lit: Lit,
) -> Result<Store, Memory>
    requires unit { unit.now ≡ lit ∷ [] }
    requires news { news.now ≡ (lit ∷ []) ∷ [] }
    requires at { at.now ≡ places (negated lit) 0 primes.now }
    ensures { IfOk result (λ s. s ≡ spread primes.now ((lit ∷ []) ∷ []) lit ((lit ∷ []) ∷ []) []) }
{
    let mut fresh = Sieve::new(alloc);
    meet_all(alloc, primes, news, &mut fresh, unit, at, lit)?;
    Ok(Store::from_sieve(alloc, fresh))
}

// Puts in a clause of one literal that brings something new.
fn include_unit_new(
    alloc: Global,
    primes: &mut Store,
    holders: &mut Holders,
    unit: &LitSet,
    lit: Lit,
) -> Result<(), Memory>
    requires held { AreHolders holders.old primes.old }
    requires unit { unit.now ≡ lit ∷ [] }
    requires new { idle primes.old (lit ∷ []) ≡ false }
    ensures all { OnOk result (primes.new ≡ with_all primes.old (walked primes.old (lit ∷ []) ((lit ∷ []) ∷ []))) }
    ensures held { OnOk result (AreHolders holders.new primes.new) }
{
    let mut news = only(alloc, unit)?;
    let fresh = met_by_unit(alloc, primes, &news, unit, holders.of(lit.negated()), lit)?;
    news.merge(fresh)?;
    put_in(alloc, primes, holders, news)
}

/// Puts in the clause of one literal, with no limit: it brings at most one new clause for each prime implicate. At
/// `Memory` it may have any of its clauses and of the new ones, or none.
pub fn include_unit(
    alloc: Global,
    primes: &mut Store,
    holders: &mut Holders,
    lit: Lit,
) -> Result<(), Memory>
    requires { AreHolders holders.old primes.old }
    ensures all { OnOk result (primes.new ≡ included primes.old (lit ∷ [])) }
    ensures held { OnOk result (AreHolders holders.new primes.new) }
{
    let unit = unit_clause(alloc, lit)?;
    if is_idle(primes, &unit) {
        return Ok(());
    }
    include_unit_new(alloc, primes, holders, &unit, lit)
}
