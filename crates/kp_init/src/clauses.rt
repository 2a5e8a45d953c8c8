ghost use Rattle.std.specs.Prelude.{◌≡◌, [], ◌∷◌, ◌++◌, map, IfOk, OnOk};
ghost use Rattle.std.specs.List.{flat_map};
ghost use Rattle.kp_base.specs.Atoms.{has_atom};
ghost use Rattle.kp_base.specs.Lists.{only_if};
ghost use Rattle.kp_ground_semantics.specs.Ground.{atom_of, numbered, numbered_set};
ghost use Rattle.kp_init.specs.Initial.{exactly_one, item_clauses};

use crate::one_of::add_exactly_one;
use kp_base::{Atoms, Lit, LitSet, Memory, Row};
use kp_ground_semantics::{literal, literal_set};
use kp_names_semantics::{GroundLit, Item};
use std::alloc::Global;

// Adds the clause of a literal, where its atom is one of the ground atoms.
fn add_literal(
    alloc: Global,
    atoms: &Atoms,
    lit: &GroundLit,
    clauses: &mut Row<LitSet>,
) -> Result<(), Memory>
    ensures { OnOk result (clauses.new ≡ clauses.old ++ only_if (has_atom atoms.now (atom_of lit.now)) ((numbered atoms.now lit.now ∷ []) ∷ [])) }
{
    if atoms.has(lit.pred, lit.objects.slice()) {
        let mut clause = LitSet::new(alloc);
        clause.insert(literal(atoms, lit))?;
        clauses.push(clause)?;
    }
    Ok(())
}

// Adds the clause of an `or`.
fn add_any(
    alloc: Global,
    atoms: &Atoms,
    lits: &[GroundLit],
    clauses: &mut Row<LitSet>,
) -> Result<(), Memory>
    ensures { OnOk result (clauses.new ≡ clauses.old ++ numbered_set atoms.now lits.now ∷ []) }
{
    clauses.push(literal_set(alloc, atoms, lits)?)
}

// Literals by the numbers of their atoms, in order.
fn literals(alloc: Global, atoms: &Atoms, lits: &[GroundLit]) -> Result<Row<Lit>, Memory>
    ensures { IfOk result (λ row. row ≡ map (numbered atoms.now) lits.now) }
{
    let mut row = Row::new(alloc);
    for lit in lits {
        row.push(literal(atoms, lit))?;
    }
    Ok(row)
}

// Adds the clauses of a `oneof`.
fn add_one_of(
    alloc: Global,
    atoms: &Atoms,
    lits: &[GroundLit],
    clauses: &mut Row<LitSet>,
) -> Result<(), Memory>
    ensures { OnOk result (clauses.new ≡ clauses.old ++ exactly_one (map (numbered atoms.now) lits.now)) }
{
    let row = literals(alloc, atoms, lits)?;
    add_exactly_one(alloc, row.slice(), clauses)
}

// Adds the clauses of an item.
fn add_item(
    alloc: Global,
    atoms: &Atoms,
    item: &Item,
    clauses: &mut Row<LitSet>,
) -> Result<(), Memory>
    ensures { OnOk result (clauses.new ≡ clauses.old ++ item_clauses atoms.now item.now) }
{
    match item {
        Item::One(lit) => add_literal(alloc, atoms, lit, clauses),
        Item::OneOf(lits) => add_one_of(alloc, atoms, lits.slice(), clauses),
        Item::AnyOf(lits) => add_any(alloc, atoms, lits.slice(), clauses),
        Item::Unknown(_) => Ok(()),
    }
}

/// The clauses of all items, in order.
pub fn clauses_of(alloc: Global, atoms: &Atoms, items: &[Item]) -> Result<Row<LitSet>, Memory>
    ensures { IfOk result (λ clauses. clauses ≡ flat_map (item_clauses atoms.now) items.now) }
{
    let mut clauses = Row::new(alloc);
    for item in items {
        add_item(alloc, atoms, item, &mut clauses)?;
    }
    Ok(clauses)
}
