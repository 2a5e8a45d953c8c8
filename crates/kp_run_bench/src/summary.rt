//! The summary of a run.
ghost use Rattle.std.specs.Prelude.{◌≡◌, ◌++◌, codes, IfOk, OnOk};
ghost use Rattle.kp_base.specs.declared.ground.TagTable.{TagTable as Table};
ghost use Rattle.kp_ktask_texts.specs.Translations.{translation_with};
ghost use Rattle.kp_words.specs.Options.{family_word};
ghost use Rattle.kp_plans_spelling.specs.Spelling.{number_line};
ghost use Rattle.kp_run_bench.specs.Summary.{word_line, summary_text};

use kp_base::{Ground, Lit, Memory, Row};
use kp_plans_spelling::{put, put_count};
use kp_run_messages::put_coverage;
use kp_words::{Asked, Family};
use std::alloc::Global;

// A family as it is called.
fn word_of(family: Family) -> &'static str
    ensures { result.now ≡ family_word family }
{
    match family {
        Family::Line => "line",
        Family::Bombs => "bombs",
    }
}

// Adds the line of a word under a title.
fn put_word(out: &mut Vec<u8>, title: &[u8], word: &[u8]) -> Result<(), Memory>
    ensures { OnOk result (out.new.items ≡ out.old.items ++ word_line title.now word.now) }
{
    put(out, title)?;
    put(out, word)?;
    put(out, b"\n")
}

// Adds the lines of a problem.
fn put_problem(out: &mut Vec<u8>, family: Family, n: u32) -> Result<(), Memory>
    ensures { OnOk result (out.new.items ≡ out.old.items ++ (word_line (codes "family ") (family_word family) ++ number_line (codes "n ") n)) }
{
    put_word(out, b"family ", word_of(family).as_bytes())?;
    put_count(out, b"n ", u64::from(n))
}

// Adds the lines of a plan that passed its check.
fn put_plan(out: &mut Vec<u8>, steps: usize, expanded: u32) -> Result<(), Memory>
    ensures { OnOk result (out.new.items ≡ out.old.items ++ (number_line (codes "steps ") steps ++ (number_line (codes "expanded ") expanded ++ codes "check yes\n"))) }
{
    put_count(out, b"steps ", steps as u64)?;
    put_count(out, b"expanded ", u64::from(expanded))?;
    put(out, b"check yes\n")
}

/// The summary of a run: of its problem, of the counts of its translation with a table and the targets that aren't covered, and
/// of a plan with so many steps that passed its check, so many states having been expanded.
pub fn summary(
    alloc: Global,
    command: &Asked<'_>,
    ground: &Ground,
    counts: &[u8],
    uncovered: &[Lit],
    steps: usize,
    expanded: u32,
) -> Result<Row<u8>, Memory>
    ensures { (table : Table) → counts.now ≡ (translation_with ground.now table).counts → IfOk result (λ text. text ≡ summary_text command.now ground.now table uncovered.now steps expanded) }
{
    let mut out = Vec::new(alloc);
    put_problem(&mut out, command.family, command.size)?;
    put(&mut out, counts)?;
    put_coverage(&mut out, ground.atoms.slice(), uncovered)?;
    put_plan(&mut out, steps, expanded)?;
    Ok(Row::from_vec(out))
}
