ghost use Rattle.std.specs.Prelude.{◌≡◌, ◌≤◌, [], ◌∷◌, ◌++◌, drop, length, map, IfOk, OnOk};
ghost use Rattle.kp_base.specs.Lists.{each_once};
ghost use Rattle.kp_base.specs.Lit.{negated, same_lit};
ghost use Rattle.kp_base.specs.LitSet.{set_of};
ghost use Rattle.kp_init.specs.Initial.{no_two, exactly_one};

use indexmap::IndexSet;
use kp_base::{Lit, LitSet, Memory, Row};
use std::alloc::Global;

// The literals, each once, where it stands first.
fn different(alloc: Global, lits: &[Lit]) -> Result<IndexSet<Lit>, Memory>
    ensures { IfOk result (λ set. set.keys ≡ each_once same_lit lits.now) }
{
    let mut set = IndexSet::new(alloc);
    for lit in lits {
        set.insert(*lit)?;
    }
    Ok(set)
}

fn both_negated(alloc: Global, first: Lit, second: Lit) -> Result<LitSet, Memory>
    ensures { IfOk result (λ set. set ≡ set_of (negated first ∷ negated second ∷ [])) }
{
    let mut set = LitSet::new(alloc);
    set.insert(first.negated())?;
    set.insert(second.negated())?;
    Ok(set)
}

// Adds a clause for each of the others: not both it and the first hold.
fn add_pairs(
    alloc: Global,
    first: Lit,
    others: &[Lit],
    clauses: &mut Row<LitSet>,
) -> Result<(), Memory>
    ensures { OnOk result (clauses.new ≡ clauses.old ++ map (λ y. set_of (negated first ∷ negated y ∷ [])) others.now) }
{
    for other in others {
        clauses.push(both_negated(alloc, first, *other)?)?;
    }
    Ok(())
}

// What stands from this place on.
fn from(lits: &[Lit], place: usize) -> &[Lit]
    requires { place ≤ length lits.now }
    ensures { result.now ≡ drop place lits.now }
{
    &lits[place..]
}

// Adds a clause for each pair, the first literal slowest.
fn add_all_pairs(alloc: Global, lits: &[Lit], clauses: &mut Row<LitSet>) -> Result<(), Memory>
    ensures { OnOk result (clauses.new ≡ clauses.old ++ no_two lits.now) }
{
    for (place, lit) in lits.iter().enumerate() {
        add_pairs(alloc, *lit, from(lits, place + 1), clauses)?;
    }
    Ok(())
}

/// Adds the clauses by which exactly one of the different literals holds.
pub fn add_exactly_one(alloc: Global, lits: &[Lit], clauses: &mut Row<LitSet>) -> Result<(), Memory>
    ensures { OnOk result (clauses.new ≡ clauses.old ++ exactly_one lits.now) }
{
    clauses.push(LitSet::of(alloc, lits)?)?;
    let apart = different(alloc, lits)?;
    add_all_pairs(alloc, apart.as_slice(), clauses)
}
