ghost use Rattle.std.specs.Prelude.{◌≡◌, ℕ, List, IfOk, OnOk};
ghost use Rattle.kp_names.specs.View.{lifted_view};
ghost use Rattle.kp_ground_semantics.specs.Static.{says, initially};
ghost use Rattle.kp_ground_instances.specs.StaticTables.{has_atom, AddsAtoms};

use crate::atom_set::AtomSet;
use kp_base::Memory;
use kp_names::Lifted;
use kp_names_semantics::Item;
use std::alloc::Global;

// Adds the item, where it is an atom.
fn add_item<'a>(atoms: &mut AtomSet<'a>, item: &'a Item) -> Result<(), Memory>
    ensures { OnOk result (AddsAtoms atoms.old atoms.new (λ q os. says q os item.now)) }
{
    match item {
        Item::One(literal) => {
            if literal.positive {
                return atoms.insert(literal.pred, literal.objects.slice());
            }
            Ok(())
        }
        _ => Ok(()),
    }
}

/// The atoms that `:init` states.
pub fn stated_atoms<'a>(alloc: Global, lifted: &'a Lifted) -> Result<AtomSet<'a>, Memory>
    ensures { IfOk result (λ atoms. (q : ℕ) (os : List ℕ) → has_atom atoms q os ≡ initially (lifted_view lifted.now) q os) }
{
    let mut atoms = AtomSet::new(alloc);
    for item in lifted.init.slice() {
        add_item(&mut atoms, item)?;
    }
    Ok(atoms)
}
