ghost use Rattle.std.specs.Prelude.{◌≡◌, ◌∷◌, [], IfOk, OnOk, ◌++◌};
ghost use Rattle.kp_base.specs.declared.ground.TagTable.{TagTable as Table};
ghost use Rattle.kp_run_messages.specs.Coverage.{coverage_text};
ghost use Rattle.kp_ktask_texts.specs.Translations.{translation_with};
ghost use Rattle.kp_run.specs.Translate.{translates};
ghost use Rattle.kp_run.specs.Check.{failing_step};
ghost use Rattle.kp_run.specs.Outcomes.{shows_usage};
ghost use Rattle.kp_run_outcome.specs.Printing.{prints};

use kp_base::{Ground, Lit, Memory, Row, Text};
use kp_ktask_texts::Translation;
use kp_run_messages::put_coverage;
use kp_run_outcome::{FilePut, Outcome, Status};
use kp_words::{Asked, usage};
use std::alloc::Global;

// The counts, and behind them whether the table is complete.
fn with_coverage(ground: &Ground, counts: Row<u8>, uncovered: &[Lit]) -> Result<Row<u8>, Memory>
    ensures { IfOk result (λ text. text ≡ counts ++ coverage_text ground.now.atoms uncovered.now) }
{
    let mut text = counts.into_vec();
    put_coverage(&mut text, ground.atoms.slice(), uncovered)?;
    Ok(Row::from_vec(text))
}

/// The usage is printed.
pub fn usage_outcome(alloc: Global) -> Result<Outcome, Memory>
    ensures { IfOk result (λ o. o ≡ shows_usage) }
{
    Ok(Outcome {
        status: Status::Usage,
        puts: Row::new(alloc),
        text: usage(alloc)?,
    })
}

/// A text is printed, and nothing is put.
pub fn print_text(alloc: Global, text: Row<u8>) -> Outcome
    ensures { result ≡ prints text }
{
    Outcome {
        status: Status::Done,
        puts: Row::new(alloc),
        text,
    }
}

/// The step that fails, of so many; none where all of them are passed.
pub fn failing(steps: usize, step: u32) -> Option<u32>
    ensures { result ≡ failing_step steps step }
{
    if step as usize == steps {
        None
    } else {
        Some(step)
    }
}

// Adds a file that is put, with this content.
fn add_put(
    alloc: Global,
    puts: &mut Row<FilePut>,
    name: &[u8],
    content: Row<u8>,
) -> Result<(), Memory>
    ensures { OnOk result (puts.new ≡ puts.old ++ record { name = name.now; content = content } ∷ []) }
{
    let name = Text::from_slice(alloc, name)?;
    puts.push(FilePut { name, content })
}

// Both files are put.
fn put_both(
    alloc: Global,
    command: &Asked<'_>,
    domain: Row<u8>,
    problem: Row<u8>,
) -> Result<Row<FilePut>, Memory>
    ensures { IfOk result (λ puts. puts ≡ record { name = command.now.domain_out; content = domain } ∷ record { name = command.now.problem_out; content = problem } ∷ []) }
{
    let mut puts = Row::new(alloc);
    add_put(alloc, &mut puts, command.domain_out, domain)?;
    add_put(alloc, &mut puts, command.problem_out, problem)?;
    Ok(puts)
}

/// The two files of a translation are put, the counts are printed, and whether the table is complete.
pub fn translates(
    alloc: Global,
    command: &Asked<'_>,
    ground: &Ground,
    translation: Translation,
    uncovered: &[Lit],
) -> Result<Outcome, Memory>
    ensures { (table : Table) → translation ≡ translation_with ground.now table → IfOk result (λ o. o ≡ translates command.now ground.now table uncovered.now) }
{
    let puts = put_both(alloc, command, translation.domain, translation.problem)?;
    let text = with_coverage(ground, translation.counts, uncovered)?;
    Ok(Outcome {
        status: Status::Done,
        puts,
        text,
    })
}
