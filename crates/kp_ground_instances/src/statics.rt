ghost use Rattle.std.specs.Prelude.{◌≡◌, IfOk};
ghost use Rattle.kp_names.specs.View.{lifted_view};
ghost use Rattle.kp_ground_semantics.specs.Static.{is_static, initially};

use crate::atom_set::AtomSet;
use crate::changes::Changes;
use crate::stated::stated_atoms;
use kp_base::Memory;
use kp_names::Lifted;
use std::alloc::Global;
use std::marker::Model;

/// A problem by number, with tables of the predicates that aren't static and of the atoms that `:init` states.
/// Contracts see the problem.
#[derive(Drop)]
pub struct Statics<'a> {
    lifted: &'a Lifted,
    changes: Changes,
    stated: AtomSet<'a>,
}

impl<'a> Model for Statics<'a> {
    ghost use Rattle.std.specs.Coded.{codes};
    ghost use Rattle.kp_names_numbered.specs.declared.lifted.Lifted.{Lifted as Problem};
    ghost use Rattle.kp_names_numbered.specs.contracts.lifted.Lifted as lifteds;
    ghost use Rattle.kp_names.specs.View.{lifted_view};
    ghost use Rattle.kp_ground_instances.specs.StaticTables.{AreTablesOf};

    ghost Value = { Problem };

    ghost coded = { Prim.hlevel (codes, lifteds.the_row.coded) };

    ghost view = { λ s. s.lifted.now };

    ghost invariant = { λ s. AreTablesOf (lifted_view s.lifted.now) s.changes.changed.keys s.stated };
}

impl<'a> Statics<'a> {
    /// The tables of a problem.
    pub fn of(alloc: Global, lifted: &'a Lifted) -> Result<Statics<'a>, Memory>
        ensures { IfOk result (λ s. s ≡ lifted.now) }
    {
        Ok(Statics {
            lifted,
            changes: Changes::of(alloc, lifted)?,
            stated: stated_atoms(alloc, lifted)?,
        })
    }

    /// The problem.
    pub fn lifted(&self) -> &'a Lifted
        ensures { result.now ≡ self.now }
    {
        self.lifted
    }

    /// Whether a predicate is static.
    pub fn is_static(&self, pred: u32) -> bool
        ensures { result ≡ is_static (lifted_view self.now) pred }
    {
        !self.changes.has(pred)
    }

    /// Whether `:init` states an atom.
    pub fn is_true_at_first(&self, pred: u32, objects: &[u32]) -> bool
        ensures { result ≡ initially (lifted_view self.now) pred objects.now }
    {
        self.stated.has(pred, objects)
    }
}
