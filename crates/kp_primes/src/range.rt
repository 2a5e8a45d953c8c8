ghost use Rattle.std.specs.Prelude.{◌≡◌, ◌↔◌, IsTrue, nat_lt};
ghost use Rattle.std.specs.List.{list_all};
ghost use Rattle.kp_base.specs.Implicates.{IsOfAtoms, are_below};

use kp_base::{AtomId, Initial, LitSet};

/// Whether each literal is of one of the first atoms.
pub(crate) fn is_below(c: &LitSet, atoms: u32) -> bool
    ensures { result ≡ are_below atoms c.now }
{
    c.slice().iter().all(|l| l.atom.0 < atoms)
}

/// Whether the literals of clauses or tags are of atoms below this number alone.
pub fn are_of_atoms(clauses: &[LitSet], atoms: u32) -> bool
    ensures { result ≡ list_all (are_below atoms) clauses.now }
{
    clauses.iter().all(|c| is_below(c, atoms))
}

// Whether each atom is one of the first.
fn are_first(closed: &[AtomId], atoms: u32) -> bool
    ensures { result ≡ list_all (λ p. nat_lt p.0 atoms) closed.now }
{
    closed.iter().all(|p| p.0 < atoms)
}

/// Whether the formula speaks of atoms below this number alone, as `Primes::build` asks.
pub fn is_of_atoms(initial: &Initial, atoms: u32) -> bool
    ensures { IsTrue result ↔ IsOfAtoms atoms initial.now }
{
    are_of_atoms(initial.clauses.slice(), atoms) && are_first(initial.closed.slice(), atoms)
}
