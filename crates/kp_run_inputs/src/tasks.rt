//! The task of a problem with a table, and what is written of it.
ghost use Rattle.kp_run_inputs.specs.Tabled.{ground_in};
ghost use Rattle.kp_run_inputs.specs.Tasks.{AnswersTask, AnswersTexts};

use crate::tabled::Tabled;
use crate::translated::Translated;
use kp_base::Limits;
use kp_ktask::translate;
use kp_ktask_texts::{Translation, translation_with};
use kp_run_prepare::{Early, ended_by};
use std::alloc::Global;

/// A problem with a table, and their task; or the outcome with which a command ends since it is larger than a limit allows.
pub fn translated_of(alloc: Global, tabled: Tabled) -> Result<Translated, Early>
    ensures { AnswersTask tabled result }
{
    let ground = &tabled.related.prepared.ground;
    match translate(alloc, ground, &tabled.table, &Limits::usual()) {
        Ok(task) => Ok(Translated { tabled, task }),
        Err(stop) => Err(ended_by(alloc, stop)),
    }
}

/// What is written of the task; or that outcome.
pub fn written_of(alloc: Global, tabled: &Tabled) -> Result<Translation, Early>
    ensures { AnswersTexts (ground_in tabled.now) tabled.now.table result }
{
    let ground = &tabled.related.prepared.ground;
    match translation_with(alloc, ground, &tabled.table, &Limits::usual()) {
        Ok(translation) => Ok(translation),
        Err(stop) => Err(ended_by(alloc, stop)),
    }
}
