ghost use Rattle.std.specs.Prelude.{[], List, ℕ, IfOk};
ghost use Rattle.kp_words.specs.Asked.{of_mode};
ghost use Rattle.kp_words.specs.Options.{IsOfRange, usual_limit};
ghost use Rattle.kp_run_prepare.specs.Prepared.{Comes};
ghost use Rattle.kp_run_inputs.specs.Tabled.{ground_in, formula_in, IsTabledOf};
ghost use Rattle.kp_run_solve.specs.Solving.{Searches};
ghost use Rattle.kp_run_bench.specs.Bench.{TellsBench, BenchesGround, BenchesTrees, Benches};
ghost use Rattle.kp_run_bench.specs.Working.{IsSafe};

use crate::telling::tell_found;
use crate::texts::{front, texts_of};
use kp_base::{Memory, Texts};
use kp_run_inputs::{Origin, Tabled, Translated, settle, tabled_of, translated_of};
use kp_run_outcome::Outcome;
use kp_run_solve::find;
use kp_words::{Asked, USUAL_LIMIT};
use std::alloc::Global;

// What a run comes to on the task of a problem with a table.
fn bench_task(
    alloc: Global,
    command: &Asked<'_>,
    translated: &Translated,
) -> Result<Outcome, Memory>
    requires { IsSafe (ground_in translated.now.tabled) (formula_in translated.now.tabled) translated.now.tabled.table }
    ensures { IfOk result (Searches translated.now.task command.now.budget (TellsBench command.now (ground_in translated.now.tabled) (formula_in translated.now.tabled) translated.now.tabled.table)) }
{
    let found = find(alloc, &translated.task, command.budget)?;
    tell_found(alloc, command, translated, found)
}

// What a run comes to on two texts with the table of its mode.
fn bench_table(alloc: Global, command: &Asked<'_>, tabled: Tabled) -> Result<Outcome, Memory>
    requires { (d : List ℕ) × (p : List ℕ) × IsTabledOf usual_limit d p (of_mode command.now.mode) [] tabled }
    ensures { IfOk result (BenchesGround command.now (ground_in tabled) (formula_in tabled) tabled.table) }
{
    match translated_of(alloc, tabled) {
        Ok(translated) => bench_task(alloc, command, &translated),
        Err(early) => settle(early),
    }
}

// What a run comes to on two texts.
fn bench_texts(alloc: Global, command: &Asked<'_>, texts: Texts) -> Result<Outcome, Memory>
    ensures { IfOk result (Comes usual_limit texts.domain texts.problem (BenchesTrees command.now)) }
{
    let domain = front(texts.domain);
    let problem = front(texts.problem);
    match tabled_of(
        alloc,
        USUAL_LIMIT,
        domain,
        problem,
        Origin::Mode(command.mode),
    ) {
        Ok(tabled) => bench_table(alloc, command, tabled),
        Err(early) => settle(early),
    }
}

/// What a run on a generated problem of a size from 2 to 100 comes to.
pub fn bench(alloc: Global, command: &Asked<'_>) -> Result<Outcome, Memory>
    requires { IsOfRange 2 100 command.now.size }
    ensures { IfOk result (Benches command.now) }
{
    let texts = texts_of(alloc, command.family, command.size)?;
    bench_texts(alloc, command, texts)
}
