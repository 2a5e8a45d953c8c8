//! What is told of what a search finds.
ghost use Rattle.std.specs.Prelude.{◌≡◌, List, IfOk};
ghost use Rattle.kp_base.specs.declared.lit.Lit.{Lit as Literal};
ghost use Rattle.kp_base.specs.Covering.{AreUncovered};
ghost use Rattle.kp_ktask_texts.specs.Translations.{translation_with};
ghost use Rattle.kp_search.specs.Ends.{Tells};
ghost use Rattle.kp_run_inputs.specs.Tabled.{ground_in, formula_in};
ghost use Rattle.kp_run_bench.specs.Summary.{summary_text};
ghost use Rattle.kp_run_bench.specs.Bench.{SumsUp, TellsBench};
ghost use Rattle.kp_run_bench.specs.Working.{ArePlan, IsSafe};
ghost use Rattle.kp_run_outcome.specs.Printing.{prints};

use crate::judging::{actions_among, judge};
use crate::summary::summary;
use kp_base::{Limits, Memory, Row, Stop};
use kp_check::Judged;
use kp_ktask_texts::translation_with;
use kp_run_inputs::Translated;
use kp_run_outcome::{Outcome, Status};
use kp_run_solve::tell_solved;
use kp_search::Found;
use kp_words::Asked;
use std::alloc::Global;

// The counts of a translation that is within the limits.
fn counts_of(alloc: Global, translated: &Translated) -> Result<Row<u8>, Memory>
    ensures { IfOk result (λ counts. counts ≡ (translation_with (ground_in translated.now.tabled) translated.now.tabled.table).counts) }
{
    let tabled = &translated.tabled;
    let ground = &tabled.related.prepared.ground;
    match translation_with(alloc, ground, &tabled.table, &Limits::usual()) {
        Ok(translation) => Ok(translation.counts),
        Err(Stop::Refused(_)) => unreachable!(),
        Err(Stop::Memory) => Err(Memory),
    }
}

// A summary is printed.
fn print_summary(alloc: Global, text: Row<u8>) -> Outcome
    ensures { result ≡ prints text }
{
    Outcome {
        status: Status::Done,
        puts: Row::new(alloc),
        text,
    }
}

// A plan of so many steps passed its check, and the summary is printed.
fn sum_up(
    alloc: Global,
    command: &Asked<'_>,
    translated: &Translated,
    steps: usize,
    expanded: u32,
) -> Result<Outcome, Memory>
    ensures { IfOk result (λ o. (uncovered : List Literal) × AreUncovered (ground_in translated.now.tabled) (formula_in translated.now.tabled) translated.now.tabled.table uncovered × (o ≡ prints (summary_text command.now (ground_in translated.now.tabled) translated.now.tabled.table uncovered steps expanded))) }
{
    let coverage = translated.tabled.coverage(alloc)?;
    let counts = counts_of(alloc, translated)?;
    let text = summary(
        alloc,
        command,
        &translated.tabled.related.prepared.ground,
        counts.slice(),
        coverage.uncovered.slice(),
        steps,
        expanded,
    )?;
    Ok(print_summary(alloc, text))
}

// A plan is told: its actions are checked, and the summary is printed. They work, since its operators succeed.
fn tell_plan(
    alloc: Global,
    command: &Asked<'_>,
    translated: &Translated,
    operators: &Row<u32>,
    expanded: u32,
) -> Result<Outcome, Memory>
    requires safe { IsSafe (ground_in translated.now.tabled) (formula_in translated.now.tabled) translated.now.tabled.table }
    requires plan { ArePlan translated.now.task operators.now }
    ensures { IfOk result (SumsUp command.now (ground_in translated.now.tabled) (formula_in translated.now.tabled) translated.now.tabled.table operators.now expanded) }
{
    let prepared = &translated.tabled.related.prepared;
    let numbers = actions_among(alloc, &prepared.ground, operators.slice())?;
    match judge(alloc, prepared, &numbers)? {
        Judged::Yes => sum_up(alloc, command, translated, numbers.len(), expanded),
        Judged::No { .. } => unreachable!(),
    }
}

/// What is told of what the search of the task of a problem with a table finds.
pub fn tell_found(
    alloc: Global,
    command: &Asked<'_>,
    translated: &Translated,
    found: Found,
) -> Result<Outcome, Memory>
    requires safe { IsSafe (ground_in translated.now.tabled) (formula_in translated.now.tabled) translated.now.tabled.table }
    requires tells { Tells translated.now.task command.now.budget found }
    ensures { IfOk result (TellsBench command.now (ground_in translated.now.tabled) (formula_in translated.now.tabled) translated.now.tabled.table found) }
{
    match found {
        Found::Plan { ops, expanded } => tell_plan(alloc, command, translated, &ops, expanded),
        Found::NoPlan => tell_solved(alloc, None, translated, Found::NoPlan),
        Found::Spent { expanded } => {
            tell_solved(alloc, None, translated, Found::Spent { expanded })
        }
    }
}
