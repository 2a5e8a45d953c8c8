//! What a tag says of the clauses that have the negation of one of its literals. It says nothing new of any other.
ghost use Rattle.std.specs.Prelude.{◌≡◌, slice_get, OnOk};
ghost use Rattle.kp_base.specs.Entailed.{HasModel};
ghost use Rattle.kp_base.specs.Implicates.{formula_of};
ghost use Rattle.kp_clauses.specs.Sieved.{stands};
ghost use Rattle.kp_primes.specs.Placed.{AreHolders};
ghost use Rattle.kp_primes.specs.Asked.{inconsistent, is_lit, leads, denied_from, some_denied_from, some_denied_near, with_left_at, with_left_from, with_left_near};

use crate::ask::{add_left, is_denied};
use crate::holders::Holders;
use kp_base::{Lit, LitSet, Memory};
use kp_clauses::is_tautology;

// Whether this literal stands at a place of a clause.
fn is_at(c: &LitSet, place: usize, lit: Lit) -> bool
    ensures { result ≡ is_lit lit (slice_get c.now place) }
{
    match c.slice().get(place) {
        Some(x) => *x == lit,
        None => false,
    }
}

// Whether the literal is the clause's first or second.
fn leads(lit: Lit, c: &LitSet) -> bool
    ensures { result ≡ leads lit c.now }
{
    is_at(c, 0, lit) || is_at(c, 1, lit)
}

// Whether the clause at a place begins with the literal, and the tag denies it.
fn is_denied_at(clauses: &[LitSet], place: usize, tag: &LitSet, lit: Lit) -> bool
    ensures { result ≡ stands (denied_from tag.now lit) (slice_get clauses.now place) }
{
    match clauses.get(place) {
        Some(c) => is_at(c, 0, lit) && is_denied(tag, c),
        None => false,
    }
}

// Whether the tag denies a clause that begins with the literal.
fn some_denied_from(clauses: &[LitSet], holders: &Holders, tag: &LitSet, lit: Lit) -> bool
    ensures { result ≡ some_denied_from clauses.now holders.now tag.now lit }
{
    holders
        .of(lit)
        .iter()
        .any(|place| is_denied_at(clauses, *place, tag, lit))
}

// Whether the tag denies a clause that begins with the negation of one of its literals.
fn some_denied_near(clauses: &[LitSet], holders: &Holders, tag: &LitSet) -> bool
    ensures { result ≡ some_denied_near clauses.now holders.now tag.now }
{
    tag.slice()
        .iter()
        .any(|l| some_denied_from(clauses, holders, tag, l.negated()))
}

/// Whether a tag is inconsistent with prime implicates that some state satisfies.
pub fn is_inconsistent(clauses: &[LitSet], holders: &Holders, tag: &LitSet) -> bool
    requires holders { AreHolders holders.now clauses.now }
    requires model { HasModel (formula_of clauses.now) }
    ensures { result ≡ inconsistent clauses.now tag.now }
{
    is_tautology(tag) || some_denied_near(clauses, holders, tag)
}

// Adds what the tag leaves of the clause at a place, if that is one literal and this one leads the clause.
fn add_left_at(
    set: &mut LitSet,
    clauses: &[LitSet],
    place: usize,
    tag: &LitSet,
    lit: Lit,
) -> Result<(), Memory>
    ensures { OnOk result (set.new ≡ with_left_at tag.now lit set.old (slice_get clauses.now place)) }
{
    match clauses.get(place) {
        Some(c) => {
            if leads(lit, c) {
                add_left(set, tag, c)?;
            }
            Ok(())
        }
        None => Ok(()),
    }
}

// Adds what the tag leaves of each clause that the literal leads, where that is one literal.
fn add_left_from(
    set: &mut LitSet,
    clauses: &[LitSet],
    holders: &Holders,
    tag: &LitSet,
    lit: Lit,
) -> Result<(), Memory>
    ensures { OnOk result (set.new ≡ with_left_from clauses.now holders.now tag.now set.old lit) }
{
    let places = holders.of(lit);
    for place in places {
        add_left_at(set, clauses, *place, tag, lit)?;
    }
    Ok(())
}

/// Adds what the tag leaves of each clause that the negation of one of its literals leads, where that is one literal.
pub fn add_left_near(
    set: &mut LitSet,
    clauses: &[LitSet],
    holders: &Holders,
    tag: &LitSet,
) -> Result<(), Memory>
    ensures { OnOk result (set.new ≡ with_left_near clauses.now holders.now tag.now set.old) }
{
    let lits = tag.slice();
    for l in lits {
        add_left_from(set, clauses, holders, tag, l.negated())?;
    }
    Ok(())
}
