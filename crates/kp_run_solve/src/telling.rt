//! What is told of what a search finds.
ghost use Rattle.std.specs.Prelude.{◌≡◌, true, length, map, nat_lt, option_map, IfOk};
ghost use Rattle.std.specs.List.{list_all};
ghost use Rattle.kp_plans.specs.Printed.{plan_text};
ghost use Rattle.kp_words.specs.Command.{if_named};
ghost use Rattle.kp_run_inputs.specs.Tabled.{ground_in, formula_in};
ghost use Rattle.kp_search.specs.declared.found.Found.TheVariants as ends;
ghost use Rattle.kp_run_solve.specs.Operators.{IsInside};
ghost use Rattle.kp_run_solve.specs.Solving.{solves, spends, TellsSolved, TellsClassical, AreNamed};
ghost use Rattle.kp_run_outcome.specs.Printing.{denies};

use crate::names::actions_among;
use kp_base::{Ground, GroundName, Memory, Row, Text};
use kp_lift::steps_of;
use kp_plans::plan_text;
use kp_run_inputs::{Tabled, Translated};
use kp_run_messages::{no_classical_plan, no_plan, spent};
use kp_run_outcome::{FilePut, Outcome, Status};
use kp_search::Found;
use std::alloc::Global;

// The file of a plan, if a name is given for it.
fn puts_of(
    alloc: Global,
    name: Option<&[u8]>,
    steps: &Row<GroundName>,
) -> Result<Row<FilePut>, Memory>
    ensures { IfOk result (λ puts. puts ≡ map (λ n. record { name = n; content = plan_text steps.now }) (if_named (option_map (λ n. n.now) name.entry))) }
{
    let mut puts = Row::new(alloc);
    if let Some(name) = name {
        let content = plan_text(alloc, steps)?;
        let name = Text::from_slice(alloc, name)?;
        puts.push(FilePut { name, content })?;
    }
    Ok(puts)
}

// A plan is told, and the plan of the translation is put, if a name is given for it.
fn tell_plan(
    alloc: Global,
    name: Option<&[u8]>,
    written: Row<GroundName>,
    plan: &Row<GroundName>,
) -> Result<Outcome, Memory>
    ensures { IfOk result (λ o. o ≡ solves (option_map (λ n. n.now) name.entry) written plan.now) }
{
    let puts = puts_of(alloc, name, &written)?;
    drop(written);
    let text = plan_text(alloc, plan)?;
    Ok(Outcome {
        status: Status::Done,
        puts,
        text,
    })
}

// The answer is no.
fn tell_none(alloc: Global, text: Row<u8>) -> Outcome
    ensures { result ≡ denies text }
{
    Outcome {
        status: Status::Negative,
        puts: Row::new(alloc),
        text,
    }
}

// The budget is spent.
fn tell_spent(alloc: Global, expanded: u32) -> Result<Outcome, Memory>
    ensures { IfOk result (λ o. o ≡ spends expanded) }
{
    Ok(Outcome {
        status: Status::Spent,
        puts: Row::new(alloc),
        text: spent(alloc, expanded)?,
    })
}

// Operators of the task of a problem with a table are told by name.
fn tell_operators(
    alloc: Global,
    name: Option<&[u8]>,
    translated: &Translated,
    operators: &Row<u32>,
) -> Result<Outcome, Memory>
    requires { list_all (λ n. nat_lt n (length translated.now.task.ops)) operators.now ≡ true }
    ensures { IfOk result (λ o. (written : _) × (plan : _) × AreNamed (ground_in translated.now.tabled) translated.now.tabled.table operators.now written plan × (o ≡ solves (option_map (λ n. n.now) name.entry) written plan)) }
{
    let ground = &translated.tabled.related.prepared.ground;
    let written = steps_of(alloc, &translated.task, operators)?;
    let plan = actions_among(alloc, ground, operators.slice())?;
    tell_plan(alloc, name, written, &plan)
}

// There is no plan, and it is told whether the table is complete.
fn tell_no_plan(alloc: Global, tabled: &Tabled) -> Result<Outcome, Memory>
    ensures { (name : _) → IfOk result (TellsSolved name (ground_in tabled.now) (formula_in tabled.now) tabled.now.table ends.NoPlan) }
{
    let coverage = tabled.coverage(alloc)?;
    Ok(tell_none(alloc, no_plan(alloc, coverage.uncovered.slice())?))
}

/// What is told of what is found in the task of a problem with a table.
pub fn tell_solved(
    alloc: Global,
    name: Option<&[u8]>,
    translated: &Translated,
    found: Found,
) -> Result<Outcome, Memory>
    requires { IsInside (length translated.now.task.ops) found }
    ensures { IfOk result (TellsSolved (option_map (λ n. n.now) name.entry) (ground_in translated.now.tabled) (formula_in translated.now.tabled) translated.now.tabled.table found) }
{
    match found {
        Found::Plan { ops, .. } => tell_operators(alloc, name, translated, &ops),
        Found::NoPlan => tell_no_plan(alloc, &translated.tabled),
        Found::Spent { expanded } => tell_spent(alloc, expanded),
    }
}

// Actions are told by name.
fn tell_actions(alloc: Global, ground: &Ground, actions: &Row<u32>) -> Result<Outcome, Memory>
    ensures { (n : _) → list_all (λ k. nat_lt k (length ground.now.actions)) actions.now ≡ true → IfOk result (TellsClassical ground.now (ends.Plan actions.now n)) }
{
    let plan = actions_among(alloc, ground, actions.slice())?;
    tell_plan(alloc, None, Row::new(alloc), &plan)
}

/// What is told of what is found in the task of a ground problem with one initial state.
pub fn tell_classical(alloc: Global, ground: &Ground, found: Found) -> Result<Outcome, Memory>
    ensures { IsInside (length ground.now.actions) found → IfOk result (TellsClassical ground.now found) }
{
    match found {
        Found::Plan { ops, .. } => tell_actions(alloc, ground, &ops),
        Found::NoPlan => Ok(tell_none(alloc, no_classical_plan(alloc)?)),
        Found::Spent { expanded } => tell_spent(alloc, expanded),
    }
}
