ghost use Rattle.std.specs.Prelude.{◌≡◌, IfOk};
ghost use Rattle.kp_law_ktask.specs.Task.{task_of};
ghost use Rattle.kp_ktask.specs.Translated.{without_operators};
ghost use Rattle.kp_ktask_texts.specs.Translations.{translation_with, AnswersTranslation};

use crate::domain::domain_text;
use crate::report::counts_text;
use kp_base::{Ground, Limits, Memory, Row, Stop, TagTable};
use kp_classic::Task;
use kp_ktask::{judge, outline};
use kp_write::problem_text;
use std::alloc::Global;

/// The texts of a translation.
#[derive(Debug, PartialEq, Eq, Drop)]
pub struct Translation {
    /// The bytes of the domain file.
    pub domain: Row<u8>,
    /// The bytes of the problem file.
    pub problem: Row<u8>,
    /// How many atoms, actions, tags, merges and facts there are, each on a line of its own.
    pub counts: Row<u8>,
}

// The texts of a ground problem with a table, whose task has this outline.
fn texts_of(
    alloc: Global,
    ground: &Ground,
    table: &TagTable,
    outline: &Task,
) -> Result<Translation, Memory>
    requires { outline.now ≡ without_operators (task_of ground.now table.now) }
    ensures { IfOk result (λ t. t ≡ translation_with ground.now table.now) }
{
    Ok(Translation {
        domain: domain_text(alloc, ground, table, outline.facts.slice())?,
        problem: problem_text(alloc, outline)?,
        counts: counts_text(alloc, ground, table, outline.facts.len())?,
    })
}

fn texts(alloc: Global, ground: &Ground, table: &TagTable) -> Result<Translation, Memory>
    ensures { IfOk result (λ t. t ≡ translation_with ground.now table.now) }
{
    let outline = outline(alloc, ground, table)?;
    texts_of(alloc, ground, table, &outline)
}

/// The texts of a ground problem with a table of tags and merges.
/// A task with more facts than the limit, or else with a greater weight, is refused.
pub fn translation_with(
    alloc: Global,
    ground: &Ground,
    table: &TagTable,
    limits: &Limits,
) -> Result<Translation, Stop>
    ensures { AnswersTranslation ground.now table.now limits.now result }
{
    judge(ground, table, limits)?;
    Ok(texts(alloc, ground, table)?)
}
