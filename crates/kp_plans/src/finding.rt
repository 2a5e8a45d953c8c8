ghost use Rattle.std.specs.Prelude.{◌<◌, length};
ghost use Rattle.kp_plans.specs.Found.{AnswersSteps, action_of};
ghost use Rattle.kp_plans.specs.WordTables.{step_under};

use crate::step::PlanStep;
use crate::table::NameTable;
use kp_base::{Ground, Refused, Row, Stop};
use std::alloc::Global;

// The numbers that the table has for the names of steps.
fn find_all(alloc: Global, table: &NameTable, steps: &[PlanStep]) -> Result<Row<u32>, Stop>
    requires { length steps.now < 2147483648 }
    ensures { AnswersSteps (step_under table.now) steps.now result }
{
    let mut numbers = Row::new(alloc);
    for step in steps {
        let Some(number) = table.find(alloc, &step.name)? else {
            let step = numbers.len() as u32 + 1;
            return Err(Stop::Refused(Refused::StepUnknown { step }));
        };
        numbers.push(number)?;
    }
    Ok(numbers)
}

/// The numbers of the actions that the steps of a plan name; of several actions with one name, the first.
///
/// The first step that names no action of the ground problem is refused with `StepUnknown` and its number.
pub fn find_steps(alloc: Global, form: &Ground, steps: &Row<PlanStep>) -> Result<Row<u32>, Stop>
    requires few_actions { length form.now.actions < 2147483648 }
    requires few_steps { length steps.now < 2147483648 }
    ensures { AnswersSteps (action_of form.now.actions) steps.now result }
{
    let table = NameTable::of_actions(alloc, form.actions.slice())?;
    find_all(alloc, &table, steps.slice())
}
