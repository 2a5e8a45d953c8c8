ghost use Rattle.std.specs.Prelude.{◌≡◌, ◌||◌, IfOk, OnOk};
ghost use Rattle.std.specs.List.{list_any};
ghost use Rattle.kp_names_semantics.specs.Lifted.{is_named};
ghost use Rattle.kp_names.specs.View.{lifted_view};
ghost use Rattle.kp_base.specs.Atoms.{Atom as Told, same_atom};
ghost use Rattle.kp_ground_semantics.specs.Ground.{atom_of};
ghost use Rattle.kp_init.specs.NamedAtoms.{is_kept, is_named_by};

use indexmap::IndexSet;
use kp_base::Memory;
use kp_names::Lifted;
use kp_names_semantics::{GroundLit, Item};
use std::alloc::Global;
use std::marker::Model;

/// A problem by number, with a table of the atoms that its `:init` names. Contracts see the problem.
#[derive(Drop)]
pub struct Named<'a> {
    lifted: &'a Lifted,
    atoms: IndexSet<(u32, &'a [u32])>,
}

impl<'a> Model for Named<'a> {
    ghost use Rattle.std.specs.Coded.{codes};
    ghost use Rattle.std.specs.Prelude.{◌≡◌};
    ghost use Rattle.kp_base.specs.Atoms.{Atom};
    ghost use Rattle.kp_names_numbered.specs.declared.lifted.Lifted.{Lifted as Problem};
    ghost use Rattle.kp_names_numbered.specs.contracts.lifted.Lifted as lifteds;
    ghost use Rattle.kp_names_semantics.specs.Lifted.{is_named};
    ghost use Rattle.kp_names.specs.View.{lifted_view};
    ghost use Rattle.kp_init.specs.NamedAtoms.{is_kept};

    ghost Value = { Problem };

    ghost coded = { Prim.hlevel (codes, lifteds.the_row.coded) };

    ghost view = { λ n. n.lifted.now };

    ghost invariant = { λ n. (a : Atom) → is_kept n.atoms.keys a ≡ is_named (lifted_view n.lifted.now) a.pred a.objects };
}

fn add<'a>(atoms: &mut IndexSet<(u32, &'a [u32])>, lit: &'a GroundLit) -> Result<(), Memory>
    ensures { OnOk result ((a : Told) → is_kept atoms.new.keys a ≡ (is_kept atoms.old.keys a || same_atom a (atom_of lit.now))) }
{
    atoms.insert((lit.pred, lit.objects.slice()))?;
    Ok(())
}

fn add_all<'a>(atoms: &mut IndexSet<(u32, &'a [u32])>, lits: &'a [GroundLit]) -> Result<(), Memory>
    ensures { OnOk result ((a : Told) → is_kept atoms.new.keys a ≡ (is_kept atoms.old.keys a || list_any (λ m. same_atom a (atom_of m)) lits.now)) }
{
    for lit in lits {
        add(atoms, lit)?;
    }
    Ok(())
}

fn add_item<'a>(atoms: &mut IndexSet<(u32, &'a [u32])>, item: &'a Item) -> Result<(), Memory>
    ensures { OnOk result ((a : Told) → is_kept atoms.new.keys a ≡ (is_kept atoms.old.keys a || is_named_by a item.now)) }
{
    match item {
        Item::One(lit) | Item::Unknown(lit) => add(atoms, lit),
        Item::OneOf(lits) | Item::AnyOf(lits) => add_all(atoms, lits.slice()),
    }
}

fn named_by<'a>(alloc: Global, items: &'a [Item]) -> Result<IndexSet<(u32, &'a [u32])>, Memory>
    ensures { IfOk result (λ atoms. (a : Told) → is_kept atoms.keys a ≡ list_any (is_named_by a) items.now) }
{
    let mut atoms = IndexSet::new(alloc);
    for item in items {
        add_item(&mut atoms, item)?;
    }
    Ok(atoms)
}

impl<'a> Named<'a> {
    /// The table of a problem.
    pub fn of(alloc: Global, lifted: &'a Lifted) -> Result<Named<'a>, Memory>
        ensures { IfOk result (λ named. named ≡ lifted.now) }
    {
        Ok(Named {
            lifted,
            atoms: named_by(alloc, lifted.init.slice())?,
        })
    }

    /// Whether some item names the atom of this predicate and these objects.
    pub fn has(&self, pred: u32, objects: &[u32]) -> bool
        ensures { result ≡ is_named (lifted_view self.now) pred objects.now }
    {
        self.atoms.contains(&(pred, objects))
    }
}
