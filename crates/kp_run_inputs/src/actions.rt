ghost use Rattle.std.specs.Prelude.{◌≡◌, ◌<◌, Some, List, ℕ, true, nat_lt, IfOk, length};
ghost use Rattle.std.specs.List.{list_all};
ghost use Rattle.kp_outside.specs.Outside.{IsFront, IsWithin};
ghost use Rattle.kp_plans.specs.PlanFiles.{step_names};
ghost use Rattle.kp_base.specs.declared.refused.Stop.TheVariants as causes;
ghost use Rattle.kp_base.specs.Files.{most_bytes};
ghost use Rattle.kp_run_prepare.specs.Refusing.{EndsBy};
ghost use Rattle.kp_run_inputs.specs.Actions.{named_with, AnswersActions, AnswersSteps};

use kp_base::{Ground, GroundName, Memory, Part, Refused, Row, Stop};
use kp_outside::Got;
use kp_plans::{PlanStep, find_steps, read_plan};
use kp_run_messages::Nameable;
use kp_run_prepare::{Early, Prepared, ended_by, refuse_with};
use std::alloc::Global;

// The names of steps.
fn names_of(alloc: Global, steps: Row<PlanStep>) -> Result<Row<GroundName>, Memory>
    ensures { IfOk result (λ ns. ns ≡ step_names steps) }
{
    let mut names = Row::new(alloc);
    for step in steps.into_vec() {
        names.push(step.name)?;
    }
    Ok(names)
}

// A command ends since a step names no action; the refusal may name the steps.
fn end_at_step(alloc: Global, ground: &Ground, steps: Row<PlanStep>, refused: Refused) -> Early
    ensures { EndsBy (named_with ground.now (step_names steps)) (causes.Refused refused) result }
{
    let Ok(names) = names_of(alloc, steps) else {
        return Early::Memory;
    };
    let named = Nameable {
        atoms: ground.atoms.slice(),
        actions: ground.actions.slice(),
        steps: names.slice(),
    };
    match refuse_with(alloc, &named, refused) {
        Ok(outcome) => Early::With(outcome),
        Err(_) => Early::Memory,
    }
}

// The actions that steps name.
fn numbers_of(alloc: Global, prepared: &Prepared, steps: Row<PlanStep>) -> Result<Row<u32>, Early>
    requires { length steps < 2147483648 }
    ensures answers { AnswersSteps prepared.now.ground steps result }
    ensures inside { IfOk result (λ ns. list_all (λ n. nat_lt n (length prepared.now.ground.actions)) ns ≡ true) }
    ensures few { IfOk result (λ ns. length ns < 2147483648) }
{
    match find_steps(alloc, &prepared.ground, &steps) {
        Ok(numbers) => Ok(numbers),
        Err(Stop::Refused(refused)) => Err(end_at_step(alloc, &prepared.ground, steps, refused)),
        Err(Stop::Memory) => Err(Early::Memory),
    }
}

/// The actions that the steps of a plan file name, of which at most 16,777,216 bytes were read; or the outcome with
/// which a command ends that has none.
pub fn actions_of(alloc: Global, prepared: &Prepared, plan: Got) -> Result<Row<u32>, Early>
    requires { IsWithin most_bytes plan }
    ensures answers { (text : List ℕ) → IsFront (Some text) most_bytes plan → AnswersActions prepared.now.ground text result }
    ensures inside { IfOk result (λ ns. list_all (λ n. nat_lt n (length prepared.now.ground.actions)) ns ≡ true) }
    ensures few { IfOk result (λ ns. length ns < 2147483648) }
{
    if plan.more {
        return Err(ended_by(alloc, Stop::Refused(Refused::TooLong(Part::Plan))));
    }
    match read_plan(alloc, plan.bytes.slice()) {
        Ok(steps) => numbers_of(alloc, prepared, steps),
        Err(stop) => Err(ended_by(alloc, stop)),
    }
}
