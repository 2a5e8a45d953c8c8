ghost use Rattle.std.specs.Prelude.{◌≡◌, ◌++◌, Some, OnOk, slice_get};
ghost use Rattle.kp_run_messages.specs.Refusals.{condition_text, conditions_text, clash_lines};

use kp_base::{Action, ClashAt, Effect, GroundName, Memory};
use kp_plans_spelling::{put, put_literals, put_name, put_numbered};

// Adds the condition of the effect at a place.
fn put_condition(
    out: &mut Vec<u8>,
    atoms: &[GroundName],
    effects: &[Effect],
    place: u32,
) -> Result<(), Memory>
    ensures { OnOk result (out.new.items ≡ out.old.items ++ condition_text atoms.now (slice_get effects.now place)) }
{
    match effects.get(place as usize) {
        Some(effect) => put_literals(out, atoms, effect.cond.slice()),
        None => Ok(()),
    }
}

// Adds the conditions of the add and of the delete of a clash.
fn put_conditions(
    out: &mut Vec<u8>,
    atoms: &[GroundName],
    effects: &[Effect],
    clash: &ClashAt,
) -> Result<(), Memory>
    ensures { OnOk result (out.new.items ≡ out.old.items ++ conditions_text atoms.now effects.now clash.now) }
{
    put(out, b"\nadd")?;
    put_condition(out, atoms, effects, clash.add)?;
    put(out, b"\ndelete")?;
    put_condition(out, atoms, effects, clash.delete)?;
    put(out, b"\n")
}

// Adds the lines of a clash of an action.
fn put_clash(
    out: &mut Vec<u8>,
    atoms: &[GroundName],
    action: &Action,
    clash: &ClashAt,
) -> Result<(), Memory>
    ensures { OnOk result (out.new.items ≡ out.old.items ++ clash_lines atoms.now (Some action.now) clash.now) }
{
    put(out, b"action ")?;
    put_name(out, &action.name)?;
    put(out, b"\natom ")?;
    put_numbered(out, atoms, clash.atom.0)?;
    put_conditions(out, atoms, action.effects.slice(), clash)
}

// Adds the lines of a clash among actions.
pub(crate) fn put_clash_among(
    out: &mut Vec<u8>,
    atoms: &[GroundName],
    actions: &[Action],
    clash: &ClashAt,
) -> Result<(), Memory>
    ensures { OnOk result (out.new.items ≡ out.old.items ++ clash_lines atoms.now (slice_get actions.now clash.now.action) clash.now) }
{
    match actions.get(clash.action as usize) {
        Some(action) => put_clash(out, atoms, action, clash),
        None => Ok(()),
    }
}
