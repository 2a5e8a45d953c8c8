ghost use Rattle.std.specs.Prelude.{List, ℕ, IfOk, Some};
ghost use Rattle.kp_outside.specs.Outside.{IsFront, IsWithin};
ghost use Rattle.kp_words.specs.Asked.{source_of};
ghost use Rattle.kp_run_inputs.specs.SourceTables.{IsOrigin};
ghost use Rattle.kp_run.specs.Solve.{SolvesTexts};
ghost use Rattle.kp_base.specs.Files.{most_bytes};

use kp_base::Memory;
use kp_outside::Got;
use kp_run_inputs::{Origin, settle, tabled_of};
use kp_run_outcome::Outcome;
use kp_run_solve::solve_table;
use kp_words::Asked;
use std::alloc::Global;

/// What a call to solve comes to on what was read of its files.
pub fn solve_on(
    alloc: Global,
    asked: &Asked<'_>,
    domain: Got,
    problem: Got,
    origin: Origin,
) -> Result<Outcome, Memory>
    requires domain { IsWithin most_bytes domain }
    requires problem { IsWithin most_bytes problem }
    requires origin { (merges : List (List ℕ)) × IsOrigin (source_of asked.now) merges origin }
    ensures { (x y : List ℕ) (merges : List (List ℕ)) → IsFront (Some x) most_bytes domain → IsFront (Some y) most_bytes problem → IsOrigin (source_of asked.now) merges origin → IfOk result (SolvesTexts asked.now x y merges) }
{
    match tabled_of(alloc, asked.implicates, domain, problem, origin) {
        Ok(tabled) => solve_table(alloc, asked.classical, asked.budget, tabled),
        Err(early) => settle(early),
    }
}
