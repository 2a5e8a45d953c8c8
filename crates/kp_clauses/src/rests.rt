//! What clauses have beside the literals of another one. Where that is within a third clause, a resolvent of the two
//! holds one of the clauses.

ghost use Rattle.std.specs.Prelude.{◌≡◌, false, IsTrue, OnOk, IfOk};
ghost use Rattle.kp_base.specs.Lists.{Member};
ghost use Rattle.kp_base.specs.Lit.{negated};
ghost use Rattle.kp_base.specs.Steps.{has};
ghost use Rattle.kp_clauses.specs.Rests.{with_outside, rest_of, AreRests};

use crate::clause::has_lit;
use crate::sieve::{Sieve, Spot};
use kp_base::{Lit, LitSet, Memory, Row};
use std::alloc::Global;

// Adds a literal, if a clause without the first one lacks it.
fn add_outside(set: &mut LitSet, e: &LitSet, lit: Lit, x: Lit) -> Result<(), Memory>
    ensures { OnOk result (set.new ≡ with_outside e.now lit set.old x) }
{
    if x == lit || !has_lit(e, x) {
        set.insert(x)?;
    }
    Ok(())
}

// What a clause has beside another one without a literal.
fn rest(alloc: Global, d: &LitSet, e: &LitSet, lit: Lit) -> Result<LitSet, Memory>
    ensures { IfOk result (λ set. set ≡ rest_of e.now lit d.now) }
{
    let mut set = LitSet::new(alloc);
    let lits = d.slice();
    for x in lits {
        add_outside(&mut set, e, lit, *x)?;
    }
    Ok(set)
}

// Whether a rest is short, and may be within a clause that is resolved with on the literal.
fn is_of_use(set: &LitSet, lit: Lit) -> bool
    ensures { IsTrue result → has set.now (negated lit) ≡ false }
{
    set.slice().len() < 5 && !has_lit(set, lit.negated())
}

// Puts the rest of a clause last, if it is of use and none that is there is within the clause.
fn put_rest(
    alloc: Global,
    rests: &mut Sieve,
    clauses: &[LitSet],
    d: &LitSet,
    e: &LitSet,
    lit: Lit,
) -> Result<(), Memory>
    requires there { Member clauses.now d.now }
    requires rests { AreRests clauses.now e.now lit rests.old }
    ensures { OnOk result (AreRests clauses.now e.now lit rests.new) }
{
    if rests.subsumes(d) {
        return Ok(());
    }
    let set = rest(alloc, d, e, lit)?;
    if is_of_use(&set, lit) {
        rests.push(set)?;
    }
    Ok(())
}

/// The marks of a clause, and of it without a literal.
#[derive(Clone, Copy)]
pub(crate) struct Marks {
    pub(crate) all: u64,
    pub(crate) others: u64,
}

// Whether a clause with this mark may share a literal other than the one that was left out, since without that its rest
// is all of it and tells nothing, and has at most two bits that the whole mark lacks, where that tells something.
fn is_near(word: u64, marks: Marks) -> bool {
    let bits = word & !marks.all;
    let fewer = bits & bits.wrapping_sub(1);
    word & marks.others != 0 && marks.all != u64::MAX && fewer & fewer.wrapping_sub(1) == 0
}

// The same with the clause of a spot, if that is near.
fn put_rest_at(
    alloc: Global,
    rests: &mut Sieve,
    clauses: &[LitSet],
    spot: &Spot,
    marks: Marks,
    e: &LitSet,
    lit: Lit,
) -> Result<(), Memory>
    requires { AreRests clauses.now e.now lit rests.old }
    ensures { OnOk result (AreRests clauses.now e.now lit rests.new) }
{
    if is_near(spot.mark, marks) {
        if let Some(d) = clauses.get(spot.place) {
            put_rest(alloc, rests, clauses, d, e, lit)?;
        }
    }
    Ok(())
}

// The same with each of these spots.
fn put_rests_at(
    alloc: Global,
    rests: &mut Sieve,
    clauses: &[LitSet],
    spots: &[Spot],
    marks: Marks,
    e: &LitSet,
    lit: Lit,
) -> Result<(), Memory>
    requires { AreRests clauses.now e.now lit rests.old }
    ensures { OnOk result (AreRests clauses.now e.now lit rests.new) }
{
    for s in spots {
        put_rest_at(alloc, rests, clauses, s, marks, e, lit)?;
    }
    Ok(())
}

/// Puts in the rests of clauses that have little beside another one without a literal: those of the spots in lists.
pub(crate) fn put_rests(
    alloc: Global,
    rests: &mut Sieve,
    clauses: &[LitSet],
    lists: &[Row<Spot>],
    marks: Marks,
    e: &LitSet,
    lit: Lit,
) -> Result<(), Memory>
    requires { AreRests clauses.now e.now lit rests.old }
    ensures { OnOk result (AreRests clauses.now e.now lit rests.new) }
{
    for spots in lists {
        put_rests_at(alloc, rests, clauses, spots.slice(), marks, e, lit)?;
    }
    Ok(())
}
