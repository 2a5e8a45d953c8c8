ghost use Rattle.std.specs.Prelude.{◌≤◌, Some, List, ℕ, IfOk, length};
ghost use Rattle.kp_base.specs.Files.{most_bytes};
ghost use Rattle.kp_outside.specs.Outside.{IsFront, IsWithin};
ghost use Rattle.kp_plans.specs.PlanFiles.{IsPlanFile};
ghost use Rattle.kp_run.specs.Strip.{StripsText};

use crate::outcomes::print_text;
use kp_base::{Memory, Part, Refused, Row, Stop};
use kp_outside::Got;
use kp_plans::{PlanStep, plan_text, read_plan, strip};
use kp_run_outcome::Outcome;
use kp_run_prepare::refuse;
use std::alloc::Global;

// What the steps of a plan file come to.
fn strip_steps(alloc: Global, steps: &Row<PlanStep>) -> Result<Outcome, Memory>
    ensures { (text : List ℕ) → length text ≤ most_bytes → IsPlanFile text steps.now → IfOk result (StripsText text) }
{
    match strip(alloc, steps) {
        Ok(actions) => Ok(print_text(alloc, plan_text(alloc, &actions)?)),
        Err(Stop::Refused(refused)) => refuse(alloc, refused),
        Err(Stop::Memory) => Err(Memory),
    }
}

/// What a plan file comes to, at most 16,777,216 bytes of which were read.
pub fn strip_text(alloc: Global, got: Got) -> Result<Outcome, Memory>
    requires { IsWithin most_bytes got }
    ensures { (text : List ℕ) → IsFront (Some text) most_bytes got → IfOk result (StripsText text) }
{
    if got.more {
        return refuse(alloc, Refused::TooLong(Part::Plan));
    }
    match read_plan(alloc, got.bytes.slice()) {
        Ok(steps) => strip_steps(alloc, &steps),
        Err(Stop::Refused(refused)) => refuse(alloc, refused),
        Err(Stop::Memory) => Err(Memory),
    }
}
