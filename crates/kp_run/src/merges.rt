ghost use Rattle.std.specs.Prelude.{ℕ, List, IfOk, Some};
ghost use Rattle.kp_outside.specs.Outside.{IsFront, IsWithin};
ghost use Rattle.kp_run.specs.Merges.{MergesGround, MergesTexts};
ghost use Rattle.kp_base.specs.Files.{most_bytes};

use crate::outcomes::print_text;
use kp_base::{Ground, Memory, TagTable};
use kp_outside::Got;
use kp_run_inputs::{Origin, settle, tabled_of};
use kp_run_outcome::Outcome;
use kp_tags_files::merges_text;
use kp_words::Asked;
use std::alloc::Global;

// The merges of a table are printed.
fn list(alloc: Global, ground: &Ground, table: &TagTable) -> Result<Outcome, Memory>
    ensures { IfOk result (MergesGround ground.now table.now) }
{
    Ok(print_text(alloc, merges_text(alloc, ground, table)?))
}

/// What a call for merges comes to on what was read of its files.
pub fn merges_on(
    alloc: Global,
    asked: &Asked<'_>,
    domain: Got,
    problem: Got,
) -> Result<Outcome, Memory>
    requires domain { IsWithin most_bytes domain }
    requires problem { IsWithin most_bytes problem }
    ensures { (x y : List ℕ) → IsFront (Some x) most_bytes domain → IsFront (Some y) most_bytes problem → IfOk result (MergesTexts asked.now x y) }
{
    match tabled_of(
        alloc,
        asked.implicates,
        domain,
        problem,
        Origin::Mode(asked.mode),
    ) {
        Ok(tabled) => list(alloc, &tabled.related.prepared.ground, &tabled.table),
        Err(early) => settle(early),
    }
}
