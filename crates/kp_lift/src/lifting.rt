ghost use Rattle.std.specs.Prelude.{◌≡◌, ◌<◌, ◌&&◌, true, length, nat_lt, IfOk};
ghost use Rattle.std.specs.List.{list_all};
ghost use Rattle.kp_base.specs.Implicates.{IsOfItsAtoms};
ghost use Rattle.kp_law_ktask.specs.Task.{task_of};
ghost use Rattle.kp_lift.specs.Lifting.{IsTableOn, AnswersLifting};
ghost use Rattle.kp_lift.specs.Operators.{AreOperators};

use crate::running::run;
use kp_base::{Ground, Lit, Memory, Row, TagTable};
use kp_classic::Task;
use std::alloc::Global;

/// What lifting a list of actions comes to.
#[derive(Debug, Drop)]
pub enum Lifting {
    /// The list lifts: the operators of the task, in order.
    Lifted(Row<u32>),
    /// It doesn't.
    Unlifted {
        /// The first step whose precondition isn't known, from 0; at the goal the number of all steps.
        step: u32,
        /// The least literal that isn't known there.
        literal: Lit,
    },
}

// Whether a `u32` counts the tags and the operators.
fn are_counted(table: &TagTable, task: &Task) -> bool
    ensures { result ≡ (nat_lt (length table.now.tags) 4294967296 && nat_lt (length task.now.ops) 4294967296) }
{
    table.tags.len() < 4294967296 && task.ops.len() < 4294967296
}

/// The actions with each merge put in that adds something, as operators of the task of the ground problem and the table.
pub fn lift(
    alloc: Global,
    ground: &Ground,
    table: &TagTable,
    task: &Task,
    steps: &Row<u32>,
) -> Result<Lifting, Memory>
    requires ground { IsOfItsAtoms ground.now }
    requires table { IsTableOn ground.now table.now }
    requires task { task.now ≡ task_of ground.now table.now }
    requires inside { list_all (λ n. nat_lt n (length ground.now.actions)) steps.now ≡ true }
    requires few { length steps.now < 2147483648 }
    ensures answers { IfOk result (AnswersLifting ground.now table.now steps.now) }
    ensures operators { IfOk result (AreOperators task.now) }
{
    if !are_counted(table, task) {
        return Err(Memory);
    }
    let mut operators = Row::new(alloc);
    match run(alloc, &mut operators, ground, table, steps.slice())? {
        Some(at) => Ok(Lifting::Unlifted {
            step: at.step,
            literal: at.literal,
        }),
        None => Ok(Lifting::Lifted(operators)),
    }
}
