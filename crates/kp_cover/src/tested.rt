//! Whether all tags of a set of clauses cover, with an end at the first that doesn't.
ghost use Rattle.std.specs.Prelude.{◌≡◌, ◌↔◌, ◌≤◌, [], ◌∷◌, true, drop, get_or, length, IsTrue, IfOk};
ghost use Rattle.kp_base.specs.Covering.{AllMeet};
ghost use Rattle.kp_primes.specs.Held.{formula};
ghost use Rattle.std.specs.List.{list_all};
ghost use Rattle.kp_base.specs.Implicates.{are_below};
ghost use Rattle.kp_cover.specs.Covering.{pick};
ghost use Rattle.kp_cover.specs.Grown.{is_fine};
ghost use Rattle.kp_cover.specs.Tested.{meets, all_meet, tells_cover};

use crate::meet::meets_all;
use crate::product::with_one;
use kp_base::{Lit, LitSet, Memory};
use kp_primes::Primes;
use std::alloc::Global;

// Whether the closure of a tag has a literal of each clause.
fn meets(alloc: Global, primes: &Primes, clauses: &[LitSet], tag: &LitSet) -> Result<bool, Memory>
    requires clauses { list_all (are_below primes.now.atoms) clauses.now ≡ true }
    requires fine { is_fine primes.now.clauses tag.now ≡ true }
    ensures { IfOk result (λ b. b ≡ meets primes.now.clauses clauses.now tag.now) }
{
    let _whole = primes.clauses();
    let closed = primes.closure(alloc, tag)?;
    match closed {
        Some(set) => Ok(meets_all(&set, clauses)),
        None => Ok(true),
    }
}

// The literals of the clause at a place; none where there is no such place.
fn lits_at(clauses: &[LitSet], place: u32) -> &[Lit]
    ensures { result.now ≡ get_or clauses.now place [] }
{
    match clauses.get(place as usize) {
        Some(c) => c.slice(),
        None => &[],
    }
}

// Whether each consistent way to go on with one literal of each clause from a place on covers.
fn all_meet(
    alloc: Global,
    primes: &Primes,
    clauses: &[LitSet],
    tag: &LitSet,
    places: &[u32],
    at: usize,
) -> Result<bool, Memory>
    requires clauses { list_all (are_below primes.now.atoms) clauses.now ≡ true }
    requires fine { is_fine primes.now.clauses tag.now ≡ true }
    requires at { at ≤ length places.now }
    ensures { IfOk result (λ b. b ≡ all_meet primes.now.clauses clauses.now tag.now (pick clauses.now (drop at places.now))) }
{
    if at == places.len() {
        let b = meets(alloc, primes, clauses, tag)?;
        return Ok(b);
    }
    let lits = lits_at(clauses, places[at]);
    for l in lits {
        if let Some(more) = with_one(alloc, primes, tag, *l)? {
            if !all_meet(alloc, primes, clauses, &more, places, at + 1)? {
                return Ok(false);
            }
        }
    }
    Ok(true)
}

/// Whether the tags of the clauses at these places cover all the clauses. It ends at the first tag that doesn't.
pub fn is_cover(
    alloc: Global,
    primes: &Primes,
    clauses: &[LitSet],
    places: &[u32],
) -> Result<bool, Memory>
    requires { list_all (are_below primes.now.atoms) clauses.now ≡ true }
    ensures { IfOk result (λ b. b ≡ tells_cover primes.now clauses.now places.now) }
{
    let _whole = primes.clauses();
    let tag = LitSet::new(alloc);
    let b = all_meet(alloc, primes, clauses, &tag, places, 0)?;
    Ok(b)
}

/// Whether the empty tag meets all the clauses.
pub fn empty_tag_covers(alloc: Global, primes: &Primes, clauses: &[LitSet]) -> Result<bool, Memory>
    requires { list_all (are_below primes.now.atoms) clauses.now ≡ true }
    ensures { IfOk result (λ b. IsTrue b ↔ AllMeet (formula primes.now) ([] ∷ []) clauses.now) }
{
    let _whole = primes.clauses();
    let tag = LitSet::new(alloc);
    let covers = meets(alloc, primes, clauses, &tag)?;
    Ok(covers)
}
