ghost use Rattle.std.specs.Prelude.{◌≡◌, map, OnOk};
ghost use Rattle.kp_ground.specs.Gathered.{gather};
ghost use Rattle.kp_ground_flatten.specs.Literals.{lit_view};

use kp_base::{Atoms, Memory};
use kp_ground_flatten::{BoundLit, Sink};
use std::alloc::Global;

/// The atoms of effects that are handed over, up to one beyond a limit.
#[derive(Drop)]
pub struct EffectAtoms {
    /// The atoms so far.
    pub atoms: Atoms,
    /// The limit.
    pub limit: u32,
}

// Adds the atoms of some literals.
fn note_all(alloc: Global, limit: u32, atoms: &mut Atoms, lits: &[BoundLit]) -> Result<(), Memory>
    ensures { OnOk result (atoms.new ≡ gather limit atoms.old (map lit_view lits.now)) }
{
    for lit in lits {
        atoms.note(alloc, limit, lit.pred, lit.objects)?;
    }
    Ok(())
}

impl Sink for EffectAtoms {
    ghost use Rattle.kp_ground_semantics.specs.Ground.{effect_literals};

    ghost takes = { λ g f. record { atoms = gather g.limit g.atoms (effect_literals f); limit = g.limit } };

    fn take(&mut self, alloc: Global, conds: &[BoundLit], made: &BoundLit) -> Result<(), Memory> {
        note_all(alloc, self.limit, &mut self.atoms, conds)?;
        self.atoms.note(alloc, self.limit, made.pred, made.objects)?;
        Ok(())
    }
}
