ghost use Rattle.std.specs.Prelude.{◌≡◌, [], ◌∷◌, ◌++◌, map, IfOk, OnOk};
ghost use Rattle.kp_base.specs.Atoms.{kept_atom};
ghost use Rattle.kp_names.specs.View.{lifted_view};
ghost use Rattle.kp_init.specs.Initial.{closed_of};
ghost use Rattle.kp_init.specs.NamedAtoms.{closed_among};

use crate::named::Named;
use kp_base::{AtomId, Atoms, Memory, Row};
use std::alloc::Global;

// Adds the number of an atom, unless some item names it.
fn add_closed(
    atoms: &Atoms,
    named: &Named,
    key: &(u32, Vec<u32>),
    closed: &mut Row<AtomId>,
) -> Result<(), Memory>
    ensures { OnOk result (closed.new ≡ closed.old ++ closed_among (lifted_view named.now) atoms.now (kept_atom key.now ∷ [])) }
{
    if !named.has(key.0, key.1.as_slice()) {
        closed.push(AtomId(atoms.place(key.0, key.1.as_slice())))?;
    }
    Ok(())
}

// Adds the numbers of those of some atoms that no item names.
fn add_all_closed(
    atoms: &Atoms,
    named: &Named,
    keys: &[(u32, Vec<u32>)],
    closed: &mut Row<AtomId>,
) -> Result<(), Memory>
    ensures { OnOk result (closed.new ≡ closed.old ++ closed_among (lifted_view named.now) atoms.now (map kept_atom keys.now)) }
{
    for key in keys {
        add_closed(atoms, named, key, closed)?;
    }
    Ok(())
}

/// The numbers of the atoms that no item names.
pub fn closed_atoms(alloc: Global, atoms: &Atoms, named: &Named) -> Result<Row<AtomId>, Memory>
    ensures { IfOk result (λ closed. closed ≡ closed_of (lifted_view named.now) atoms.now) }
{
    let mut closed = Row::new(alloc);
    add_all_closed(atoms, named, atoms.keys(), &mut closed)?;
    Ok(closed)
}
