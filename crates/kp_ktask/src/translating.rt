ghost use Rattle.std.specs.Prelude.{◌≡◌, length, IfOk, OnOk, IfErr};
ghost use Rattle.kp_law_ktask.specs.Task.{task_of};
ghost use Rattle.kp_ktask.specs.Translated.{FitsLimits, StopsTask, AnswersTask, without_operators};

use crate::facts::{fact_names, start};
use crate::numbers::numbers;
use crate::operators::{push_merges, push_operators};
use crate::weights::{fact_count, task_weight};
use kp_base::{Ground, Limits, Memory, Refused, Row, Stop, TagTable};
use kp_classic::{Conds, Op, Task};
use std::alloc::Global;

/// Whether the task is within the limits.
pub fn judge(ground: &Ground, table: &TagTable, limits: &Limits) -> Result<(), Stop>
    ensures within { OnOk result (FitsLimits (task_of ground.now table.now) limits.now) }
    ensures refused { IfErr result (StopsTask (task_of ground.now table.now) limits.now) }
{
    if fact_count(ground, table) > u128::from(limits.facts) {
        return Err(Stop::Refused(Refused::FactsOver));
    }
    if task_weight(ground, table) > u128::from(limits.task_weight) {
        return Err(Stop::Refused(Refused::WeightOver));
    }
    Ok(())
}

/// How many atoms and tags there are. More than a `u32` counts are want of memory.
pub fn sizes(ground: &Ground, table: &TagTable) -> Result<(u32, u32), Memory>
    ensures { IfOk result (λ sizes. (sizes.0 ≡ length ground.now.atoms) × (sizes.1 ≡ length table.now.tags)) }
{
    let Ok(atoms) = u32::try_from(ground.atoms.len()) else {
        return Err(Memory);
    };
    let Ok(tags) = u32::try_from(table.tags.len()) else {
        return Err(Memory);
    };
    Ok((atoms, tags))
}

/// The task of a ground problem and a table without its operators.
pub fn outline(alloc: Global, ground: &Ground, table: &TagTable) -> Result<Task, Memory>
    ensures { IfOk result (λ task. task ≡ without_operators (task_of ground.now table.now)) }
{
    let (atoms, tags) = sizes(ground, table)?;
    let facts = fact_names(alloc, tags, ground.atoms.slice())?;
    let init = start(alloc, atoms, table.tags.slice())?;
    Ok(Task {
        facts,
        init,
        goal: Conds {
            yes: numbers(alloc, atoms, 0, ground.goal.slice())?,
            no: Row::new(alloc),
        },
        ops: Row::new(alloc),
    })
}

// The operators of actions, and then those of merges.
fn operators(alloc: Global, ground: &Ground, table: &TagTable) -> Result<Row<Op>, Memory>
    ensures { IfOk result (λ row. row ≡ (task_of ground.now table.now).ops) }
{
    let (atoms, tags) = sizes(ground, table)?;
    let mut row = Row::new(alloc);
    push_operators(alloc, &mut row, atoms, tags, ground.actions.slice())?;
    push_merges(alloc, &mut row, atoms, table.merges.slice())?;
    Ok(row)
}

fn whole(alloc: Global, ground: &Ground, table: &TagTable) -> Result<Task, Memory>
    ensures { IfOk result (λ task. task ≡ task_of ground.now table.now) }
{
    let mut task = outline(alloc, ground, table)?;
    task.ops = operators(alloc, ground, table)?;
    Ok(task)
}

/// The task of a ground problem and a table of tags and merges, with names that tell its facts and operators. A task
/// with more facts than the limit, or else with a greater weight, is refused.
pub fn translate(
    alloc: Global,
    ground: &Ground,
    table: &TagTable,
    limits: &Limits,
) -> Result<Task, Stop>
    ensures { AnswersTask ground.now table.now limits.now result }
{
    judge(ground, table, limits)?;
    let task = whole(alloc, ground, table)?;
    Ok(task)
}
