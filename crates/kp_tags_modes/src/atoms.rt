//! The clauses that say of each atom of some clauses that it is true or false.
ghost use Rattle.std.specs.Prelude.{◌≡◌, map, IfOk, OnOk};
ghost use Rattle.kp_base.specs.Relevance.{either_value};
ghost use Rattle.kp_tags_modes.specs.Added.{with_atoms, atoms_in};

use kp_base::{Lit, LitSet, Memory, Row};
use kp_relevance::either_value;
use std::alloc::Global;

// Adds the atoms of a clause, as positive literals.
fn add_atoms(set: &mut LitSet, lits: &[Lit]) -> Result<(), Memory>
    ensures { OnOk result (set.new ≡ with_atoms set.old lits.now) }
{
    for l in lits {
        set.insert(Lit {
            atom: l.atom,
            positive: true,
        })?;
    }
    Ok(())
}

// The atoms of clauses, as positive literals.
fn atoms_in(alloc: Global, clauses: &[LitSet]) -> Result<LitSet, Memory>
    ensures { IfOk result (λ set. set ≡ atoms_in clauses.now) }
{
    let mut set = LitSet::new(alloc);
    for c in clauses {
        add_atoms(&mut set, c.slice())?;
    }
    Ok(set)
}

// That each atom is true or false, as clauses.
fn either_values(alloc: Global, atoms: &[Lit]) -> Result<Row<LitSet>, Memory>
    ensures { IfOk result (λ row. row ≡ map (λ l. either_value l.atom.0) atoms.now) }
{
    let mut row = Row::new(alloc);
    for l in atoms {
        row.push(either_value(alloc, l.atom)?)?;
    }
    Ok(row)
}

/// That each atom of the clauses is true or false, as clauses.
pub fn assigning(alloc: Global, clauses: &[LitSet]) -> Result<Row<LitSet>, Memory>
    ensures { IfOk result (λ row. row ≡ map (λ l. either_value l.atom.0) (atoms_in clauses.now)) }
{
    let atoms = atoms_in(alloc, clauses)?;
    let row = either_values(alloc, atoms.slice());
    drop(atoms);
    Ok(row?)
}
