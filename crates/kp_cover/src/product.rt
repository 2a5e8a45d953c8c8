//! The tags that take one literal of each clause.
ghost use Rattle.std.specs.Prelude.{◌≡◌, ◌++◌, [], ◌∷◌, cond, IfOk, OnOk};
ghost use Rattle.kp_base.specs.LitSet.{with_lit};
ghost use Rattle.kp_primes.specs.Held.{formula};
ghost use Rattle.kp_base.specs.Covering.{AreTagsOfClauses};
ghost use Rattle.kp_cover.specs.Grown.{is_fine, with_each, grown, all_grown, if_fine};

use crate::distinct::distinct;
use kp_base::{Lit, LitSet, Memory, Row};
use kp_primes::Primes;
use std::alloc::Global;

// Whether the tag is consistent.
fn is_fine(primes: &Primes, tag: &LitSet) -> bool
    ensures { result ≡ is_fine primes.now.clauses tag.now }
{
    let _whole = primes.clauses();
    primes.consistent(tag)
}

/// The tag with one literal more, if that is consistent.
pub(crate) fn with_one(
    alloc: Global,
    primes: &Primes,
    tag: &LitSet,
    lit: Lit,
) -> Result<Option<LitSet>, Memory>
    ensures { IfOk result (λ more. more ≡ if_fine primes.now.clauses (with_lit lit tag.now)) }
{
    let more = tag.with(alloc, lit)?;
    if is_fine(primes, &more) {
        Ok(Some(more))
    } else {
        Ok(None)
    }
}

// Puts the tag with one literal more behind the others, where it is consistent.
fn grow_one(
    alloc: Global,
    primes: &Primes,
    tags: &mut Row<LitSet>,
    tag: &LitSet,
    lit: Lit,
) -> Result<(), Memory>
    ensures { OnOk result (tags.new ≡ tags.old ++ cond (is_fine primes.now.clauses (with_lit lit tag.now)) (with_lit lit tag.now ∷ []) []) }
{
    let more = tag.with(alloc, lit)?;
    if is_fine(primes, &more) {
        tags.push(more)?;
    }
    Ok(())
}

// Puts the tag with each literal of a clause behind the others, where that is consistent.
fn grow_tag(
    alloc: Global,
    primes: &Primes,
    tags: &mut Row<LitSet>,
    tag: &LitSet,
    clause: &LitSet,
) -> Result<(), Memory>
    ensures { OnOk result (tags.new ≡ tags.old ++ with_each primes.now.clauses clause.now tag.now) }
{
    let lits = clause.slice();
    for l in lits {
        grow_one(alloc, primes, tags, tag, *l)?;
    }
    Ok(())
}

// The tags with the literals of one clause more.
fn grow(
    alloc: Global,
    primes: &Primes,
    tags: &[LitSet],
    clause: &LitSet,
) -> Result<Row<LitSet>, Memory>
    ensures { IfOk result (λ new. new ≡ grown primes.now.clauses tags.now clause.now) }
{
    let mut new = Row::new(alloc);
    for tag in tags {
        grow_tag(alloc, primes, &mut new, tag, clause)?;
    }
    Ok(new)
}

// The tags of all clauses.
fn grow_all(alloc: Global, primes: &Primes, clauses: &[LitSet]) -> Result<Row<LitSet>, Memory>
    ensures { IfOk result (λ new. new ≡ all_grown primes.now.clauses ([] ∷ []) clauses.now) }
{
    let mut tags = Row::new(alloc);
    tags.push(LitSet::new(alloc))?;
    for c in clauses {
        tags = grow(alloc, primes, tags.slice(), c)?;
    }
    Ok(tags)
}

/// The tags that take one literal of each clause and are consistent, each once, the literals of the first clause
/// slowest.
pub fn cov(alloc: Global, primes: &Primes, clauses: &Row<LitSet>) -> Result<Row<LitSet>, Memory>
    ensures { IfOk result (AreTagsOfClauses (formula primes.now) clauses.now) }
{
    let _whole = primes.clauses();
    let tags = grow_all(alloc, primes, clauses.slice())?;
    let kept = distinct(alloc, tags.slice())?;
    Ok(kept)
}
