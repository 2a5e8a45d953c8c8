//! Ground problems, from numbers of atoms.

use crate::literals::{Sign, literal, set};
use kp_base::{Action, Atoms, Effect, Ground, GroundName, Memory, Row, Text};
use std::alloc::Global;

/// The conditions of an effect, and its result.
pub type Change<'a> = (&'a [Sign], Sign);

/// A name without objects.
pub fn name(alloc: Global, head: &[u8]) -> Result<GroundName, Memory> {
    Ok(GroundName {
        head: Text::from_slice(alloc, head)?,
        objects: Row::new(alloc),
    })
}

fn names(alloc: Global, heads: &[&[u8]]) -> Result<Row<GroundName>, Memory> {
    let mut row = Row::new(alloc);
    for head in heads {
        row.push(name(alloc, head)?)?;
    }
    Ok(row)
}

fn nameless(alloc: Global, count: u32) -> Result<Row<GroundName>, Memory> {
    let mut row = Row::new(alloc);
    for _ in 0..count {
        row.push(GroundName {
            head: Text::new(alloc),
            objects: Row::new(alloc),
        })?;
    }
    Ok(row)
}

fn without_actions(alloc: Global, atoms: Row<GroundName>, goal: &[Sign]) -> Result<Ground, Memory> {
    let goal = set(alloc, goal)?;
    Ok(Ground {
        atoms,
        table: Atoms::new(alloc),
        actions: Row::new(alloc),
        goal,
    })
}

/// A ground problem of so many atoms without names, and without actions.
pub fn idle(alloc: Global, count: u32, goal: &[Sign]) -> Result<Ground, Memory> {
    without_actions(alloc, nameless(alloc, count)?, goal)
}

/// A ground problem of atoms with these names, without actions.
pub fn named(alloc: Global, heads: &[&[u8]], goal: &[Sign]) -> Result<Ground, Memory> {
    without_actions(alloc, names(alloc, heads)?, goal)
}

fn effects(alloc: Global, changes: &[Change]) -> Result<Row<Effect>, Memory> {
    let mut row = Row::new(alloc);
    for (cond, result) in changes {
        row.push(Effect {
            cond: set(alloc, cond)?,
            result: literal(*result),
        })?;
    }
    Ok(row)
}

fn action(
    alloc: Global,
    name: GroundName,
    pre: &[Sign],
    changes: &[Change],
) -> Result<Action, Memory> {
    let pre = set(alloc, pre)?;
    let effects = effects(alloc, changes)?;
    Ok(Action { name, pre, effects })
}

/// One action more, with a name.
pub fn add_named(
    alloc: Global,
    ground: &mut Ground,
    head: &[u8],
    pre: &[Sign],
    changes: &[Change],
) -> Result<(), Memory> {
    let name = name(alloc, head)?;
    ground.actions.push(action(alloc, name, pre, changes)?)
}

/// One action more, without a name.
pub fn add(
    alloc: Global,
    ground: &mut Ground,
    pre: &[Sign],
    changes: &[Change],
) -> Result<(), Memory> {
    add_named(alloc, ground, b"", pre, changes)
}

/// A ground problem of so many atoms and one action that may always be done.
pub fn single(
    alloc: Global,
    count: u32,
    changes: &[Change],
    goal: &[Sign],
) -> Result<Ground, Memory> {
    let mut ground = idle(alloc, count, goal)?;
    add(alloc, &mut ground, &[], changes)?;
    Ok(ground)
}
