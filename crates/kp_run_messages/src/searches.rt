ghost use Rattle.std.specs.Prelude.{◌≡◌, IfOk};
ghost use Rattle.kp_run_messages.specs.Searches.{no_plan_line, no_plan_text, spent_text};

use crate::coverage::put_completeness;
use kp_base::{Lit, Memory, Row};
use kp_plans_spelling::{put, put_count};
use std::alloc::Global;

const NO_PLAN: &str = "no plan\n";

/// A classical problem has no plan.
pub fn no_classical_plan(alloc: Global) -> Result<Row<u8>, Memory>
    ensures { IfOk result (λ text. text ≡ no_plan_line) }
{
    Ok(Row::from_vec(NO_PLAN.as_bytes().to_vec(alloc)?))
}

/// A translation has no plan, and whether its table is complete: none of its targets is uncovered.
pub fn no_plan(alloc: Global, uncovered: &[Lit]) -> Result<Row<u8>, Memory>
    ensures { IfOk result (λ text. text ≡ no_plan_text uncovered.now) }
{
    let mut out = Vec::new(alloc);
    put(&mut out, NO_PLAN.as_bytes())?;
    put_completeness(&mut out, uncovered)?;
    Ok(Row::from_vec(out))
}

/// The budget of a search is spent, with as many states expanded.
pub fn spent(alloc: Global, expanded: u32) -> Result<Row<u8>, Memory>
    ensures { IfOk result (λ text. text ≡ spent_text expanded) }
{
    let mut out = Vec::new(alloc);
    put_count(&mut out, b"spent ", u64::from(expanded))?;
    Ok(Row::from_vec(out))
}
