//! The task that the tests are given: three cells in a row, the first to the left, and a step to the left.

use kp_base::{Memory, Row, Text};
use kp_classic::{Conds, Op, OpEffect, Task};
use std::alloc::Global;

pub(crate) fn row(alloc: Global, numbers: &[u32]) -> Result<Row<u32>, Memory> {
    let mut row = Row::new(alloc);
    for number in numbers {
        row.push(*number)?;
    }
    Ok(row)
}

pub(crate) fn conds(alloc: Global, yes: &[u32], no: &[u32]) -> Result<Conds, Memory> {
    let yes = row(alloc, yes)?;
    let no = row(alloc, no)?;
    Ok(Conds { yes, no })
}

pub(crate) fn names(alloc: Global, count: usize) -> Result<Row<Text>, Memory> {
    let mut row = Row::new(alloc);
    for _ in 0..count {
        row.push(Text::new(alloc))?;
    }
    Ok(row)
}

fn effect(alloc: Global, cell: u32, fact: u32, adds: bool) -> Result<OpEffect, Memory> {
    let cond = conds(alloc, &[cell], &[])?;
    Ok(OpEffect { cond, fact, adds })
}

// What is in the third cell goes to the second, and what is in the second to the first.
fn effects(alloc: Global) -> Result<Row<OpEffect>, Memory> {
    let mut row = Row::new(alloc);
    for (cell, fact, adds) in [(2, 1, true), (2, 2, false), (1, 0, true), (1, 1, false)] {
        row.push(effect(alloc, cell, fact, adds)?)?;
    }
    Ok(row)
}

// The step to the left may be taken where the first cell is empty.
fn left(alloc: Global) -> Result<Op, Memory> {
    let pre = conds(alloc, &[], &[0])?;
    let effects = effects(alloc)?;
    Ok(Op {
        name: Text::new(alloc),
        pre,
        effects,
    })
}

fn ops(alloc: Global) -> Result<Row<Op>, Memory> {
    let mut row = Row::new(alloc);
    row.push(left(alloc)?)?;
    Ok(row)
}

/// Three cells, of which some are full at the start, with a goal.
pub(crate) fn cells(alloc: Global, init: &[u32], yes: &[u32], no: &[u32]) -> Result<Task, Memory> {
    let (facts, init) = (names(alloc, 3)?, row(alloc, init)?);
    let (goal, ops) = (conds(alloc, yes, no)?, ops(alloc)?);
    Ok(Task {
        facts,
        init,
        goal,
        ops,
    })
}
