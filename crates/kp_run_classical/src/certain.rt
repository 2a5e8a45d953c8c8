//! Whether a formula has a model of which each clause is one literal.
ghost use Rattle.std.specs.Prelude.{◌≡◌, ◌<◌, ◌↔◌, ◌||◌, ℕ, true, not, length, IfOk, IsTrue};
ghost use Rattle.std.specs.List.{list_any, list_all};
ghost use Rattle.kp_base.specs.Entailed.{HasModel};
ghost use Rattle.kp_base.specs.Implicates.{are_below, IsOfAtoms};
ghost use Rattle.kp_base.specs.Lit.{positive, same_lit, has};
ghost use Rattle.kp_base.specs.Steps as on_atoms;
ghost use Rattle.kp_classic.specs.Grounded.{is_said};
ghost use Rattle.kp_run_classical.specs.Certain.{marked, has_units};

use kp_base::{AtomId, Initial, Lit, LitSet, Memory};
use std::alloc::Global;

// Marks the atom of a positive literal.
fn mark(lit: &Lit, marks: &mut [bool])
    requires { lit.now.atom.0 < length marks.old }
    ensures length { length marks.new ≡ length marks.old }
    ensures marked { (p : ℕ) → marked marks.new p ≡ (same_lit (positive p) lit.now || marked marks.old p) }
{
    if lit.positive {
        marks[lit.atom.0 as usize] = true;
    }
}

// Marks the atoms of the positive literals.
fn mark_all(lits: &[Lit], marks: &mut [bool])
    requires { are_below (length marks.old) lits.now ≡ true }
    ensures length { length marks.new ≡ length marks.old }
    ensures marked { (p : ℕ) → marked marks.new p ≡ (has lits.now (positive p) || marked marks.old p) }
{
    for lit in lits {
        mark(lit, marks);
    }
}

// Marks the atoms that stand in a clause.
fn mark_clauses(clauses: &[LitSet], marks: &mut [bool])
    requires { list_all (are_below (length marks.old)) clauses.now ≡ true }
    ensures length { length marks.new ≡ length marks.old }
    ensures marked { (p : ℕ) → marked marks.new p ≡ (list_any (λ c. has c (positive p)) clauses.now || marked marks.old p) }
{
    for clause in clauses {
        mark_all(clause.slice(), marks);
    }
}

// A row in which just the atoms are marked that stand in a clause.
fn said_atoms(alloc: Global, atoms: u32, initial: &Initial) -> Result<Vec<bool>, Memory>
    requires { list_all (are_below atoms) initial.now.clauses ≡ true }
    ensures { IfOk result (λ marks. (p : ℕ) → marked marks.items p ≡ is_said initial.now p) }
{
    let mut marks = vec![in alloc; false; atoms as usize]?;
    mark_clauses(initial.clauses.slice(), &mut marks);
    Ok(marks)
}

// Whether an atom is marked.
fn is_marked(atom: AtomId, marks: &[bool]) -> bool
    ensures { result ≡ marked marks.now atom.0 }
{
    marks.get(atom.0 as usize).copied().unwrap_or(false)
}

// Whether a literal holds where just the marked atoms do.
fn holds(lit: &Lit, marks: &[bool]) -> bool
    ensures { result ≡ on_atoms.holds (marked marks.now) lit.now }
{
    is_marked(lit.atom, marks) == lit.positive
}

// Whether one of the literals does.
fn some_holds(lits: &[Lit], marks: &[bool]) -> bool
    ensures { result ≡ list_any (on_atoms.holds (marked marks.now)) lits.now }
{
    lits.iter().any(|lit| holds(lit, marks))
}

// Whether each clause does.
fn clauses_hold(clauses: &[LitSet], marks: &[bool]) -> bool
    ensures { result ≡ list_all (list_any (on_atoms.holds (marked marks.now))) clauses.now }
{
    clauses
        .iter()
        .all(|clause| some_holds(clause.slice(), marks))
}

// Whether none of the atoms is marked.
fn none_marked(atoms: &[AtomId], marks: &[bool]) -> bool
    ensures { result ≡ list_all (λ p. not (marked marks.now p.0)) atoms.now }
{
    atoms.iter().all(|atom| !is_marked(*atom, marks))
}

// Whether the marked atoms are a model.
fn is_model(initial: &Initial, marks: &[bool]) -> bool
    ensures { result ≡ on_atoms.is_model initial.now (marked marks.now) }
{
    clauses_hold(initial.clauses.slice(), marks) && none_marked(initial.closed.slice(), marks)
}

/// Whether a formula has a model of which each clause is one literal.
pub(crate) fn has_model(alloc: Global, atoms: u32, initial: &Initial) -> Result<bool, Memory>
    requires of_atoms { IsOfAtoms atoms initial.now }
    requires units { has_units initial.now ≡ true }
    ensures { IfOk result (λ has. IsTrue has ↔ HasModel initial.now) }
{
    let marks = said_atoms(alloc, atoms, initial)?;
    Ok(is_model(initial, &marks))
}
