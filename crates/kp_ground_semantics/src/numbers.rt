ghost use Rattle.std.specs.Prelude.{◌≡◌, IfOk};
ghost use Rattle.kp_ground_semantics.specs.Ground.{numbered, numbered_set};

use kp_base::{AtomId, Atoms, Lit, LitSet, Memory};
use kp_names_semantics::GroundLit;
use std::alloc::Global;

/// A literal by the number of its atom.
pub fn literal(atoms: &Atoms, lit: &GroundLit) -> Lit
    ensures { result ≡ numbered atoms.now lit.now }
{
    Lit {
        atom: AtomId(atoms.place(lit.pred, lit.objects.slice())),
        positive: lit.positive,
    }
}

/// Literals by the numbers of their atoms, as a set.
pub fn literal_set(alloc: Global, atoms: &Atoms, lits: &[GroundLit]) -> Result<LitSet, Memory>
    ensures { IfOk result (λ set. set ≡ numbered_set atoms.now lits.now) }
{
    let mut set = LitSet::new(alloc);
    for lit in lits {
        set.insert(literal(atoms, lit))?;
    }
    Ok(set)
}
