ghost use Rattle.std.specs.Prelude.{◌≡◌, OnOk};
ghost use Rattle.kp_ground.specs.Gathered.{with_literal, gather};

use kp_base::{Atoms, Memory};
use kp_names_semantics::GroundLit;
use std::alloc::Global;

/// Adds the atom of a literal, where it is new and there are no more atoms than the limit.
pub fn add_literal(
    alloc: Global,
    limit: u32,
    atoms: &mut Atoms,
    lit: &GroundLit,
) -> Result<(), Memory>
    ensures { OnOk result (atoms.new ≡ with_literal limit atoms.old lit.now) }
{
    atoms.note(alloc, limit, lit.pred, lit.objects.slice())
}

/// Adds the atoms of some literals, as long as there are no more atoms than the limit.
pub fn add_literals(
    alloc: Global,
    limit: u32,
    atoms: &mut Atoms,
    lits: &[GroundLit],
) -> Result<(), Memory>
    ensures { OnOk result (atoms.new ≡ gather limit atoms.old lits.now) }
{
    for lit in lits {
        add_literal(alloc, limit, atoms, lit)?;
    }
    Ok(())
}
