//! Operators by name.
ghost use Rattle.std.specs.Prelude.{◌≡◌, ◌<◌, true, Some, length, map, nat_lt, IfOk};
ghost use Rattle.std.specs.List.{list_all};
ghost use Rattle.kp_law_ktask.specs.Accepted.{operator_step};

use kp_base::{GroundName, Memory, Row};
use kp_classic::Task;
use std::alloc::Global;

// The step of an operator.
fn step_of(alloc: Global, task: &Task, operator: u32) -> Result<GroundName, Memory>
    requires { operator < length task.now.ops }
    ensures { IfOk result (λ step. operator_step task.now operator ≡ Some step) }
{
    let head = task.ops.at(operator as usize).name.copy(alloc)?;
    Ok(GroundName {
        head,
        objects: Row::new(alloc),
    })
}

/// The steps of operators, as they are printed: each operator's name, without objects.
pub fn steps_of(alloc: Global, task: &Task, operators: &Row<u32>) -> Result<Row<GroundName>, Memory>
    requires { list_all (λ n. nat_lt n (length task.now.ops)) operators.now ≡ true }
    ensures { IfOk result (λ steps. map (operator_step task.now) operators.now ≡ map Some steps) }
{
    let mut steps = Row::new(alloc);
    for operator in operators.slice() {
        steps.push(step_of(alloc, task, *operator)?)?;
    }
    Ok(steps)
}
