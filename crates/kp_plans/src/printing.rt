ghost use Rattle.std.specs.Prelude.{◌≡◌, IfOk, OnOk};
ghost use Rattle.std.specs.List.{AllByRecursion};
ghost use Rattle.kp_names_semantics.specs.GroundNames.{IsGroundName};
ghost use Rattle.kp_law_texts.specs.Pieces.{Puts, each};
ghost use Rattle.kp_plans.specs.Printed.{step_line, plan_text, IsTextOf};

use kp_base::{GroundName, Memory, Row};
use kp_plans_spelling::{put, put_name};
use std::alloc::Global;

// A step on a line of its own.
fn put_step(out: &mut Vec<u8>, step: &GroundName) -> Result<(), Memory>
    ensures { OnOk result (Puts out.old.items out.new.items (step_line step.now)) }
{
    put_name(out, step)?;
    put(out, b"\n")?;
    Ok(())
}

// Steps, one a line.
fn put_steps(out: &mut Vec<u8>, steps: &[GroundName]) -> Result<(), Memory>
    ensures { OnOk result (Puts out.old.items out.new.items (each step_line steps.now)) }
{
    for step in steps {
        put_step(out, step)?;
    }
    Ok(())
}

/// A plan as it is printed: `(head objects)` for each step, one a line.
pub fn plan_text(alloc: Global, steps: &Row<GroundName>) -> Result<Row<u8>, Memory>
    ensures value { IfOk result (λ text. text ≡ plan_text steps.now) }
    // What is printed of Names in lower case reads as these steps.
    ensures reads { IfOk result (λ text. AllByRecursion IsGroundName steps.now → IsTextOf text steps.now) }
{
    let mut out = Vec::new(alloc);
    put_steps(&mut out, steps.slice())?;
    Ok(Row::from_vec(out))
}
