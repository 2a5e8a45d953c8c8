ghost use Rattle.std.specs.Prelude.{◌≡◌, length, option_map, IfOk};
ghost use Rattle.kp_run_inputs.specs.Tabled.{ground_in, formula_in};
ghost use Rattle.kp_run_solve.specs.Solving.{Searches, SolvesClassical, SolvesGround, TellsSolved};

use crate::finding::find;
use crate::telling::{tell_classical, tell_solved};
use kp_base::{Ground, Memory};
use kp_classic::Task;
use kp_run_inputs::{Tabled, Translated, settle, translated_of};
use kp_run_outcome::Outcome;
use std::alloc::Global;

// What the task of a problem with a table is solved to.
fn solve_task(
    alloc: Global,
    name: Option<&[u8]>,
    budget: u32,
    translated: &Translated,
) -> Result<Outcome, Memory>
    ensures { IfOk result (Searches translated.now.task budget (TellsSolved (option_map (λ n. n.now) name.entry) (ground_in translated.now.tabled) (formula_in translated.now.tabled) translated.now.tabled.table)) }
{
    let found = find(alloc, &translated.task, budget)?;
    tell_solved(alloc, name, translated, found)
}

/// What a problem without a clash is solved to, with a table of tags and merges. The plan of the translation is put under
/// the name, if one is given.
pub fn solve_table(
    alloc: Global,
    name: Option<&[u8]>,
    budget: u32,
    tabled: Tabled,
) -> Result<Outcome, Memory>
    ensures { IfOk result (SolvesGround (option_map (λ n. n.now) name.entry) budget (ground_in tabled) (formula_in tabled) tabled.table) }
{
    match translated_of(alloc, tabled) {
        Ok(translated) => solve_task(alloc, name, budget, &translated),
        Err(early) => settle(early),
    }
}

/// What a classical task is solved to, whose operators are the actions of a ground problem.
pub fn solve_classical(
    alloc: Global,
    budget: u32,
    ground: &Ground,
    task: &Task,
) -> Result<Outcome, Memory>
    ensures { length task.now.ops ≡ length ground.now.actions → IfOk result (SolvesClassical budget ground.now task.now) }
{
    let found = find(alloc, task, budget)?;
    tell_classical(alloc, ground, found)
}
