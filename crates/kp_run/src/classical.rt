ghost use Rattle.std.specs.Prelude.{ℕ, List, IfOk, Some};
ghost use Rattle.kp_outside.specs.Outside.{IsFront, IsWithin};
ghost use Rattle.kp_base.specs.Files.{most_bytes};
ghost use Rattle.kp_run.specs.Classical.{ClassicalTexts};

use kp_base::Memory;
use kp_outside::Got;
use kp_run_classical::prepare_classical;
use kp_run_inputs::settle;
use kp_run_outcome::Outcome;
use kp_run_solve::solve_classical;
use kp_words::Asked;
use std::alloc::Global;

/// What a call to solve two classical files comes to on what was read of its files.
pub fn classical_on(
    alloc: Global,
    asked: &Asked<'_>,
    domain: Got,
    problem: Got,
) -> Result<Outcome, Memory>
    requires domain { IsWithin most_bytes domain }
    requires problem { IsWithin most_bytes problem }
    ensures { (x y : List ℕ) → IsFront (Some x) most_bytes domain → IsFront (Some y) most_bytes problem → IfOk result (ClassicalTexts asked.now x y) }
{
    match prepare_classical(alloc, domain, problem) {
        Ok(posed) => solve_classical(alloc, asked.budget, &posed.ground, &posed.task),
        Err(early) => settle(early),
    }
}
