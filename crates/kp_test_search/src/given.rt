//! The tasks that the tests are given.

use kp_base::{Memory, Row, Text};
use kp_classic::{Conds, Op, OpEffect, Task};
use std::alloc::Global;

/// The facts that must hold for an effect, its fact, and whether that is added.
pub(crate) type Change<'a> = (&'a [u32], u32, bool);

/// The facts that must hold for an operator, and its effects.
pub(crate) type Step<'a> = (&'a [u32], &'a [Change<'a>]);

fn row(alloc: Global, numbers: &[u32]) -> Result<Row<u32>, Memory> {
    let mut row = Row::new(alloc);
    for number in numbers {
        row.push(*number)?;
    }
    Ok(row)
}

fn conds(alloc: Global, yes: &[u32]) -> Result<Conds, Memory> {
    let yes = row(alloc, yes)?;
    Ok(Conds {
        yes,
        no: Row::new(alloc),
    })
}

fn names(alloc: Global, count: u32) -> Result<Row<Text>, Memory> {
    let mut row = Row::new(alloc);
    for _ in 0..count {
        row.push(Text::new(alloc))?;
    }
    Ok(row)
}

fn effect(alloc: Global, change: Change) -> Result<OpEffect, Memory> {
    let cond = conds(alloc, change.0)?;
    Ok(OpEffect {
        cond,
        fact: change.1,
        adds: change.2,
    })
}

fn effects(alloc: Global, changes: &[Change]) -> Result<Row<OpEffect>, Memory> {
    let mut row = Row::new(alloc);
    for change in changes {
        row.push(effect(alloc, *change)?)?;
    }
    Ok(row)
}

fn op(alloc: Global, step: Step) -> Result<Op, Memory> {
    let pre = conds(alloc, step.0)?;
    let effects = effects(alloc, step.1)?;
    Ok(Op {
        name: Text::new(alloc),
        pre,
        effects,
    })
}

fn ops(alloc: Global, steps: &[Step]) -> Result<Row<Op>, Memory> {
    let mut row = Row::new(alloc);
    for step in steps {
        row.push(op(alloc, *step)?)?;
    }
    Ok(row)
}

/// A task of so many facts, with those that hold at the start, these operators, and the facts that the goal asks for.
pub(crate) fn task(
    alloc: Global,
    count: u32,
    init: &[u32],
    steps: &[Step],
    goal: &[u32],
) -> Result<Task, Memory> {
    let (facts, init) = (names(alloc, count)?, row(alloc, init)?);
    let (goal, ops) = (conds(alloc, goal)?, ops(alloc, steps)?);
    Ok(Task {
        facts,
        init,
        goal,
        ops,
    })
}
