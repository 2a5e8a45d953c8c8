ghost use Rattle.std.specs.Prelude.{◌≡◌, map, IfOk};
ghost use Rattle.kp_base.specs.Atoms.{kept_atom};
ghost use Rattle.kp_names_semantics.specs.Numbering.{name_at};
ghost use Rattle.kp_names.specs.View.{lifted_view};
ghost use Rattle.kp_ground_semantics.specs.Ground.{object_names, atom_name};

use kp_base::{GroundName, Memory, Row, Text};
use kp_names::Lifted;
use kp_names_semantics::Pred;
use std::alloc::Global;

// The name of this number; none where there is none.
fn name(alloc: Global, names: &[Text], number: u32) -> Result<Text, Memory>
    ensures { IfOk result (λ text. text ≡ name_at names.now number) }
{
    match names.get(number as usize) {
        Some(text) => Ok(text.copy(alloc)?),
        None => Ok(Text::new(alloc)),
    }
}

// The name of the predicate of this number; none where there is none.
fn predicate_name(alloc: Global, predicates: &[Pred], number: u32) -> Result<Text, Memory>
    ensures { IfOk result (λ text. text ≡ name_at (map (λ q. q.name) predicates.now) number) }
{
    match predicates.get(number as usize) {
        Some(predicate) => Ok(predicate.name.copy(alloc)?),
        None => Ok(Text::new(alloc)),
    }
}

/// The names of objects.
pub fn names_of_objects(
    alloc: Global,
    lifted: &Lifted,
    objects: &[u32],
) -> Result<Row<Text>, Memory>
    ensures { IfOk result (λ row. row ≡ object_names (lifted_view lifted.now) objects.now) }
{
    let mut row = Row::new(alloc);
    for object in objects {
        row.push(name(alloc, lifted.objects.slice(), *object)?)?;
    }
    Ok(row)
}

// The name of an atom.
fn name_of_atom(alloc: Global, lifted: &Lifted, key: &(u32, Vec<u32>)) -> Result<GroundName, Memory>
    ensures { IfOk result (λ name. name ≡ atom_name (lifted_view lifted.now) (kept_atom key.now)) }
{
    Ok(GroundName {
        head: predicate_name(alloc, lifted.predicates.slice(), key.0)?,
        objects: names_of_objects(alloc, lifted, key.1.as_slice())?,
    })
}

/// The names of atoms.
pub fn names_of_atoms(
    alloc: Global,
    lifted: &Lifted,
    keys: &[(u32, Vec<u32>)],
) -> Result<Row<GroundName>, Memory>
    ensures { IfOk result (λ row. row ≡ map (atom_name (lifted_view lifted.now)) (map kept_atom keys.now)) }
{
    let mut row = Row::new(alloc);
    for key in keys {
        row.push(name_of_atom(alloc, lifted, key)?)?;
    }
    Ok(row)
}
