ghost use Rattle.std.specs.Prelude.{◌≡◌, ◌++◌, OnOk, slice_get};
ghost use Rattle.kp_law_texts.specs.Pieces.{Puts, each, spaced, name};
ghost use Rattle.kp_plans_spelling.specs.Spelling.{name_put, name_text, atom_put, atom_text, atoms_put, atoms_text};

use crate::bytes::put;
use kp_base::{AtomId, GroundName, Memory, Text};

// Objects, a space before each.
fn put_objects(out: &mut Vec<u8>, objects: &[Text]) -> Result<(), Memory>
    ensures { OnOk result (Puts out.old.items out.new.items (each (spaced name) objects.now)) }
{
    for object in objects {
        put(out, b" ")?;
        put(out, object.slice())?;
    }
    Ok(())
}

// A name in brackets.
fn bracket(out: &mut Vec<u8>, name: &GroundName) -> Result<(), Memory>
    ensures { OnOk result (Puts out.old.items out.new.items (name_put name.now)) }
{
    put(out, b"(")?;
    put(out, name.head.slice())?;
    put_objects(out, name.objects.slice())?;
    put(out, b")")?;
    Ok(())
}

/// Adds a name in brackets: its head, and its objects behind it.
#[tactic(auto, using(crate::proofs::Adding::adds))]
pub fn put_name(out: &mut Vec<u8>, name: &GroundName) -> Result<(), Memory>
    ensures puts { OnOk result (Puts out.old.items out.new.items (name_put name.now)) }
    ensures adds { OnOk result (out.new.items ≡ out.old.items ++ name_text name.now) }
{
    bracket(out, name)
}

// The name of a number, or an empty bracket.
fn put_place(out: &mut Vec<u8>, names: &[GroundName], number: u32) -> Result<(), Memory>
    ensures { OnOk result (Puts out.old.items out.new.items (atom_put (slice_get names.now number))) }
{
    match names.get(number as usize) {
        Some(name) => bracket(out, name),
        None => put(out, b"()"),
    }
}

/// Adds the name of a number; `()` where there is none.
#[tactic(auto, using(crate::proofs::Adding::adds))]
pub fn put_numbered(out: &mut Vec<u8>, names: &[GroundName], number: u32) -> Result<(), Memory>
    ensures puts { OnOk result (Puts out.old.items out.new.items (atom_put (slice_get names.now number))) }
    ensures adds { OnOk result (out.new.items ≡ out.old.items ++ atom_text (slice_get names.now number)) }
{
    put_place(out, names, number)
}

// Atoms, a space before each.
fn put_places(out: &mut Vec<u8>, names: &[GroundName], atoms: &[AtomId]) -> Result<(), Memory>
    ensures { OnOk result (Puts out.old.items out.new.items (atoms_put names.now atoms.now)) }
{
    for atom in atoms {
        put(out, b" ")?;
        put_place(out, names, atom.0)?;
    }
    Ok(())
}

/// Adds the atoms of some numbers, each behind a space.
#[tactic(auto, using(crate::proofs::Adding::adds))]
pub fn put_atoms(out: &mut Vec<u8>, names: &[GroundName], atoms: &[AtomId]) -> Result<(), Memory>
    ensures puts { OnOk result (Puts out.old.items out.new.items (atoms_put names.now atoms.now)) }
    ensures adds { OnOk result (out.new.items ≡ out.old.items ++ atoms_text names.now atoms.now) }
{
    put_places(out, names, atoms)
}
