ghost use Rattle.std.specs.Prelude.{◌≡◌, ℕ, List, IfOk, Some};
ghost use Rattle.kp_base.specs.declared.ground.Initial.{Initial as Formula};
ghost use Rattle.kp_base.specs.Entailed.{HaveSameModels};
ghost use Rattle.kp_outside.specs.Outside.{IsFront, IsWithin};
ghost use Rattle.kp_primes.specs.Held.{formula};
ghost use Rattle.kp_run.specs.Width.{tells_width, WidthGround, WidthTexts};
ghost use Rattle.kp_base.specs.Files.{most_bytes};

use crate::outcomes::print_text;
use kp_base::{Ground, Limits, Memory, Row};
use kp_outside::Got;
use kp_run_inputs::{Related, settle};
use kp_run_messages::{over, width_report};
use kp_run_outcome::{Outcome, Status};
use kp_run_prepare::{Prepared, ended_in, prepare};
use kp_width::{WidthReport, width};
use kp_words::Asked;
use std::alloc::Global;

// The width is printed, or the target that is over the bound.
fn tell_width(
    alloc: Global,
    ground: &Ground,
    bound: u32,
    report: &WidthReport,
) -> Result<Outcome, Memory>
    ensures { IfOk result (λ o. o ≡ tells_width ground.now bound report.now) }
{
    match report {
        WidthReport::Within(rows) => {
            let text = width_report(alloc, ground.atoms.slice(), rows.slice())?;
            Ok(print_text(alloc, text))
        }
        WidthReport::Over(target) => Ok(Outcome {
            status: Status::Negative,
            puts: Row::new(alloc),
            text: over(alloc, ground.atoms.slice(), bound, *target)?,
        }),
    }
}

// How wide a ground problem without a clash is.
fn measure(alloc: Global, prepared: Prepared, bound: u32) -> Result<Outcome, Memory>
    ensures { (i : Formula) → HaveSameModels (formula prepared.primes) i → IfOk result (WidthGround bound prepared.ground i) }
{
    let related = Related::of(alloc, prepared)?;
    let prepared = &related.prepared;
    match width(
        alloc,
        &prepared.ground,
        &prepared.primes,
        &related.relevance,
        bound,
        &Limits::usual(),
    ) {
        Ok(report) => tell_width(alloc, &prepared.ground, bound, &report),
        Err(stop) => settle(ended_in(alloc, &prepared.ground, stop)),
    }
}

/// What a call for the width comes to on what was read of its files.
pub fn width_on(
    alloc: Global,
    asked: &Asked<'_>,
    domain: Got,
    problem: Got,
) -> Result<Outcome, Memory>
    requires domain { IsWithin most_bytes domain }
    requires problem { IsWithin most_bytes problem }
    ensures { (x y : List ℕ) → IsFront (Some x) most_bytes domain → IsFront (Some y) most_bytes problem → IfOk result (WidthTexts asked.now x y) }
{
    match prepare(alloc, asked.implicates, domain, problem) {
        Ok(prepared) => measure(alloc, prepared, asked.bound),
        Err(early) => settle(early),
    }
}
