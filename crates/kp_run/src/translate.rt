ghost use Rattle.std.specs.Prelude.{◌≡◌, List, ℕ, IfOk, Some};
ghost use Rattle.kp_outside.specs.Outside.{IsFront, IsWithin};
ghost use Rattle.kp_ktask_texts.specs.Translations.{translation_with};
ghost use Rattle.kp_words.specs.Asked.{source_of};
ghost use Rattle.kp_run_inputs.specs.SourceTables.{IsOrigin};
ghost use Rattle.kp_run_inputs.specs.Tabled.{ground_in, formula_in};
ghost use Rattle.kp_run.specs.Translate.{IsPut, TranslatesGround, TranslatesTexts};
ghost use Rattle.kp_base.specs.Files.{most_bytes};

use crate::outcomes::translates;
use kp_base::Memory;
use kp_ktask_texts::Translation;
use kp_outside::Got;
use kp_run_inputs::{Origin, Tabled, settle, tabled_of, written_of};
use kp_run_outcome::Outcome;
use kp_words::Asked;
use std::alloc::Global;

// What a problem with a table comes to whose task is within the limits.
fn put_texts(
    alloc: Global,
    command: &Asked<'_>,
    tabled: &Tabled,
    translation: Translation,
) -> Result<Outcome, Memory>
    requires { translation ≡ translation_with (ground_in tabled.now) tabled.now.table }
    ensures { IfOk result (IsPut command.now (ground_in tabled.now) (formula_in tabled.now) tabled.now.table) }
{
    let coverage = tabled.coverage(alloc)?;
    translates(
        alloc,
        command,
        &tabled.related.prepared.ground,
        translation,
        coverage.uncovered.slice(),
    )
}

// What a problem without a clash comes to with a table of tags and merges.
fn translate_with(alloc: Global, command: &Asked<'_>, tabled: &Tabled) -> Result<Outcome, Memory>
    ensures { IfOk result (TranslatesGround command.now (ground_in tabled.now) (formula_in tabled.now) tabled.now.table) }
{
    match written_of(alloc, tabled) {
        Ok(translation) => put_texts(alloc, command, tabled, translation),
        Err(early) => settle(early),
    }
}

/// What a translation comes to on what was read of its files.
pub fn translate_on(
    alloc: Global,
    asked: &Asked<'_>,
    domain: Got,
    problem: Got,
    origin: Origin,
) -> Result<Outcome, Memory>
    requires domain { IsWithin most_bytes domain }
    requires problem { IsWithin most_bytes problem }
    requires origin { (merges : List (List ℕ)) × IsOrigin (source_of asked.now) merges origin }
    ensures { (x y : List ℕ) (merges : List (List ℕ)) → IsFront (Some x) most_bytes domain → IsFront (Some y) most_bytes problem → IsOrigin (source_of asked.now) merges origin → IfOk result (TranslatesTexts asked.now x y merges) }
{
    match tabled_of(alloc, asked.implicates, domain, problem, origin) {
        Ok(tabled) => translate_with(alloc, asked, &tabled),
        Err(early) => settle(early),
    }
}
