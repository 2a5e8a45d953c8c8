ghost use Rattle.std.specs.Prelude.{◌≡◌, ◌++◌, OnOk};
ghost use Rattle.kp_run_messages.specs.Refusals.{part_text, file_line, place_line, tag_line, state_line, step_line, target_line};

use kp_base::{AtomId, GroundName, Lit, Memory, Part, Place};
use kp_plans_spelling::{put, put_atoms, put_literal, put_number, put_numbered};

// A file as it is called in what is printed.
fn part_name(part: Part) -> &'static str
    ensures { result.now ≡ part_text part }
{
    match part {
        Part::Domain => "domain",
        Part::Problem => "problem",
        Part::Merges => "merges",
        Part::Plan => "plan",
    }
}

// Adds the line that names a file.
pub(crate) fn put_file(out: &mut Vec<u8>, part: Part) -> Result<(), Memory>
    ensures { OnOk result (out.new.items ≡ out.old.items ++ file_line part) }
{
    put(out, b"file ")?;
    put(out, part_name(part).as_bytes())?;
    put(out, b"\n")
}

// Adds the line that names a place.
pub(crate) fn put_place(out: &mut Vec<u8>, place: &Place) -> Result<(), Memory>
    ensures { OnOk result (out.new.items ≡ out.old.items ++ place_line place.now) }
{
    put(out, b"at ")?;
    put(out, part_name(place.part).as_bytes())?;
    put(out, b" line ")?;
    put_number(out, u64::from(place.line))?;
    put(out, b" byte ")?;
    put_number(out, u64::from(place.byte))?;
    put(out, b"\n")
}

// Adds the line of a tag of a merge.
pub(crate) fn put_tag(out: &mut Vec<u8>, merge: u32, tag: u32) -> Result<(), Memory>
    ensures { OnOk result (out.new.items ≡ out.old.items ++ tag_line merge tag) }
{
    put(out, b"merge ")?;
    put_number(out, u64::from(merge))?;
    put(out, b" tag ")?;
    put_number(out, u64::from(tag))?;
    put(out, b"\n")
}

// Adds the line of a state: the atoms that hold in it.
pub(crate) fn put_state(
    out: &mut Vec<u8>,
    atoms: &[GroundName],
    state: &[AtomId],
) -> Result<(), Memory>
    ensures { OnOk result (out.new.items ≡ out.old.items ++ state_line atoms.now state.now) }
{
    put(out, b"state")?;
    put_atoms(out, atoms, state)?;
    put(out, b"\n")
}

// Adds the line of a step of a plan, counted from 1.
pub(crate) fn put_step(out: &mut Vec<u8>, steps: &[GroundName], step: u32) -> Result<(), Memory>
    ensures { OnOk result (out.new.items ≡ out.old.items ++ step_line steps.now step) }
{
    put(out, b"step ")?;
    put_number(out, u64::from(step))?;
    put(out, b" ")?;
    put_numbered(out, steps, step.saturating_sub(1))?;
    put(out, b"\n")
}

// Adds the line of a target.
pub(crate) fn put_target(out: &mut Vec<u8>, atoms: &[GroundName], target: Lit) -> Result<(), Memory>
    ensures { OnOk result (out.new.items ≡ out.old.items ++ target_line atoms.now target) }
{
    put(out, b"target ")?;
    put_literal(out, atoms, target)?;
    put(out, b"\n")
}
