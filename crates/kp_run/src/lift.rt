ghost use Rattle.std.specs.Prelude.{◌≡◌, ◌<◌, Some, List, ℕ, true, nat_lt, IfOk, length};
ghost use Rattle.std.specs.List.{list_all};
ghost use Rattle.kp_outside.specs.Outside.{IsFront, IsWithin};
ghost use Rattle.kp_words.specs.Asked.{source_of};
ghost use Rattle.kp_run_inputs.specs.SourceTables.{IsOrigin};
ghost use Rattle.kp_run_inputs.specs.Tabled.{ground_in};
ghost use Rattle.kp_run_inputs.specs.Actions.{ComesByPlan};
ghost use Rattle.kp_base.specs.Files.{most_bytes};
ghost use Rattle.kp_run_messages.specs.Lifting.{unlifted_text};
ghost use Rattle.kp_run_outcome.specs.Printing.{denies};
ghost use Rattle.kp_run.specs.Lift.{LiftsActions, LiftsPlan, LiftsTexts};
ghost use Rattle.kp_run.specs.CommandParts.{PrintsOperators};

use crate::outcomes::{failing, print_text};
use kp_base::{Ground, Lit, Memory, Row};
use kp_classic::Task;
use kp_lift::{Lifting, lift, steps_of};
use kp_outside::Got;
use kp_plans::plan_text;
use kp_run_inputs::{Origin, Tabled, Translated, actions_of, settle, tabled_of, translated_of};
use kp_run_messages::unlifted;
use kp_run_outcome::{Outcome, Status};
use kp_words::Asked;
use std::alloc::Global;

// It is told at which step a literal isn't known in its turn, or at the goal.
fn tell_unlifted(
    alloc: Global,
    ground: &Ground,
    step: Option<u32>,
    literal: Lit,
) -> Result<Outcome, Memory>
    ensures { IfOk result (λ o. o ≡ denies (unlifted_text ground.now.atoms step literal)) }
{
    Ok(Outcome {
        status: Status::Negative,
        puts: Row::new(alloc),
        text: unlifted(alloc, ground.atoms.slice(), step, literal)?,
    })
}

// The operators of a lifted plan are printed, a name each.
fn tell_lifted(alloc: Global, task: &Task, operators: &Row<u32>) -> Result<Outcome, Memory>
    requires { list_all (λ n. nat_lt n (length task.now.ops)) operators.now ≡ true }
    ensures { IfOk result (PrintsOperators task.now operators.now) }
{
    let steps = steps_of(alloc, task, operators)?;
    Ok(print_text(alloc, plan_text(alloc, &steps)?))
}

// What actions by number are lifted to.
fn lift_actions(
    alloc: Global,
    translated: &Translated,
    numbers: &Row<u32>,
) -> Result<Outcome, Memory>
    requires inside { list_all (λ n. nat_lt n (length (ground_in translated.now.tabled).actions)) numbers.now ≡ true }
    requires few { length numbers.now < 2147483648 }
    ensures { IfOk result (LiftsActions (ground_in translated.now.tabled) translated.now.tabled.table numbers.now) }
{
    let tabled = &translated.tabled;
    let ground = &tabled.related.prepared.ground;
    let lifting = lift(alloc, ground, &tabled.table, &translated.task, numbers)?;
    match lifting {
        Lifting::Lifted(operators) => tell_lifted(alloc, &translated.task, &operators),
        Lifting::Unlifted { step, literal } => {
            tell_unlifted(alloc, ground, failing(numbers.len(), step), literal)
        }
    }
}

// What the actions of a plan file are lifted to, of which at most 16,777,216 bytes were read; or a refusal.
fn lift_plan(alloc: Global, translated: &Translated, plan: Got) -> Result<Outcome, Memory>
    requires { IsWithin most_bytes plan }
    ensures { (text : List ℕ) → IsFront (Some text) most_bytes plan → IfOk result (ComesByPlan (ground_in translated.now.tabled) text (LiftsActions (ground_in translated.now.tabled) translated.now.tabled.table)) }
{
    match actions_of(alloc, &translated.tabled.related.prepared, plan) {
        Ok(numbers) => lift_actions(alloc, translated, &numbers),
        Err(early) => settle(early),
    }
}

// The same with a table of tags and merges, whose task may be refused.
fn lift_with(alloc: Global, tabled: Tabled, plan: Got) -> Result<Outcome, Memory>
    requires { IsWithin most_bytes plan }
    ensures { (text : List ℕ) → IsFront (Some text) most_bytes plan → IfOk result (LiftsPlan (ground_in tabled) text tabled.table) }
{
    match translated_of(alloc, tabled) {
        Ok(translated) => lift_plan(alloc, &translated, plan),
        Err(early) => settle(early),
    }
}

/// What a lift comes to on what was read of its files.
pub fn lift_on(
    alloc: Global,
    asked: &Asked<'_>,
    domain: Got,
    problem: Got,
    origin: Origin,
    plan: Got,
) -> Result<Outcome, Memory>
    requires domain { IsWithin most_bytes domain }
    requires problem { IsWithin most_bytes problem }
    requires origin { (merges : List (List ℕ)) × IsOrigin (source_of asked.now) merges origin }
    requires plan { IsWithin most_bytes plan }
    ensures { (x y text : List ℕ) (merges : List (List ℕ)) → IsFront (Some x) most_bytes domain → IsFront (Some y) most_bytes problem → IsOrigin (source_of asked.now) merges origin → IsFront (Some text) most_bytes plan → IfOk result (LiftsTexts asked.now x y merges text) }
{
    match tabled_of(alloc, asked.implicates, domain, problem, origin) {
        Ok(tabled) => lift_with(alloc, tabled, plan),
        Err(early) => settle(early),
    }
}
