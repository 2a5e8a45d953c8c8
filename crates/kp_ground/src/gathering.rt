ghost use Rattle.std.specs.Prelude.{◌≡◌, [], ◌∷◌, filter, OnOk};
ghost use Rattle.std.specs.List.{flat_map};
ghost use Rattle.kp_names_semantics.specs.Lifted.{item_literals};
ghost use Rattle.kp_ground.specs.Gathered.{gather};
ghost use Rattle.kp_names.specs.View.{lifted_view};
ghost use Rattle.kp_ground.specs.Passes.{is_open};

use crate::literals::add_literal;
use kp_base::{Atoms, Memory};
use kp_ground_instances::Statics;
use kp_names_semantics::{GroundLit, Item};
use std::alloc::Global;

// Adds the atom of a literal whose predicate isn't static.
fn add_open(
    alloc: Global,
    statics: &Statics,
    limit: u32,
    atoms: &mut Atoms,
    lit: &GroundLit,
) -> Result<(), Memory>
    ensures { OnOk result (atoms.new ≡ gather limit atoms.old (filter (is_open (lifted_view statics.now)) (lit.now ∷ []))) }
{
    if statics.is_static(lit.pred) {
        return Ok(());
    }
    add_literal(alloc, limit, atoms, lit)
}

// Adds the atoms of those literals whose predicates aren't static.
fn add_all_open(
    alloc: Global,
    statics: &Statics,
    limit: u32,
    atoms: &mut Atoms,
    lits: &[GroundLit],
) -> Result<(), Memory>
    ensures { OnOk result (atoms.new ≡ gather limit atoms.old (filter (is_open (lifted_view statics.now)) lits.now)) }
{
    for lit in lits {
        add_open(alloc, statics, limit, atoms, lit)?;
    }
    Ok(())
}

// Adds the atoms of an item of `:init`, but those of static predicates.
fn add_item(
    alloc: Global,
    statics: &Statics,
    limit: u32,
    atoms: &mut Atoms,
    item: &Item,
) -> Result<(), Memory>
    ensures { OnOk result (atoms.new ≡ gather limit atoms.old (filter (is_open (lifted_view statics.now)) (item_literals item.now))) }
{
    match item {
        Item::One(lit) | Item::Unknown(lit) => add_open(alloc, statics, limit, atoms, lit),
        Item::OneOf(lits) | Item::AnyOf(lits) => {
            add_all_open(alloc, statics, limit, atoms, lits.slice())
        }
    }
}

/// Adds the atoms of `:init`, but those of static predicates.
pub fn add_items(
    alloc: Global,
    statics: &Statics,
    limit: u32,
    atoms: &mut Atoms,
    items: &[Item],
) -> Result<(), Memory>
    ensures { OnOk result (atoms.new ≡ gather limit atoms.old (filter (is_open (lifted_view statics.now)) (flat_map item_literals items.now))) }
{
    for item in items {
        add_item(alloc, statics, limit, atoms, item)?;
    }
    Ok(())
}
