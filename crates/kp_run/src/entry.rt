ghost use Rattle.std.specs.Prelude.{◌≡◌, ◌++◌, ◌∷◌, [], ℕ, List, map, filter_map, Option, IfOk, OnOk, Vec as Vector};
ghost use Rattle.std.specs.declared.alloc.Global.{Global as Alloc};
ghost use Rattle.kp_base.specs.Files.{most_bytes};
ghost use Rattle.kp_outside.specs.Outside.{FileMap, IsWithin};
ghost use Rattle.kp_run_outcome.specs.Ends.{over, GetFails, OnlyReads};
ghost use Rattle.kp_words.specs.declared.verb.Verb.TheVariants as verbs;
ghost use Rattle.kp_words_options.specs.Texts.{texts as texts_of};
ghost use Rattle.kp_words.specs.Forms.{form};
ghost use Rattle.kp_words.specs.Command.{AreUtf8, file_under, inputs_of};
ghost use Rattle.kp_words.specs.Options.{IsOfRange};
ghost use Rattle.kp_run.specs.Contents.{Contents, AreContentsUnder, AreContents};
ghost use Rattle.kp_run.specs.CommandParts.{AreInputs, AreReadUnder};
ghost use Rattle.kp_run.specs.Outcomes.{ComesBy, ComesTo, IsDue};
ghost use Rattle.kp_run.specs.Ends.{Ends, InputFails};
ghost use Rattle.kp_run.specs.Clauses.{IsSoundRun, IsCompleteRun, IsSolveRun, IsClassicalRun};

use crate::check::check_on;
use crate::classical::classical_on;
use crate::inputs::{Inputs, origin_of};
use crate::lift::lift_on;
use crate::merges::merges_on;
use crate::outcomes::usage_outcome;
use crate::solve::solve_on;
use crate::strip::strip_text;
use crate::translate::translate_on;
use crate::width::width_on;
use kp_base::Memory;
use kp_outside::{OutsideStop, Shelf, Sink};
use kp_run_bench::bench;
use kp_run_outcome::{Outcome, Status, carry_out, stopped};
use kp_words::{Asked, Verb, WordStop, as_texts, asked_by};
use std::alloc::Global;

// The most bytes that are read of a file.
const MOST_BYTES: usize = 16_777_216;

// Reads the file that stands under a name, if there is one. At `Err` that failed, or memory ran out.
fn read_under<S: Shelf>(
    alloc: Global,
    asked: &Asked<'_>,
    name: &str,
    shelf: &mut S,
    inputs: &mut Inputs,
) -> Result<(), OutsideStop>
    ensures read { OnOk result ((names : List (List ℕ)) → AreReadUnder (S.contents shelf.old) names asked.now inputs.old → AreReadUnder (S.contents shelf.old) (names ++ name.now ∷ []) asked.now inputs.new) }
    ensures only { OnlyReads S.Shelf shelf.old shelf.new (GetFails (filter_map (file_under asked.now) (name.now ∷ []))) result }
{
    match asked.file(name) {
        Some(file) => match shelf.get(alloc, file, MOST_BYTES) {
            Ok(got) => {
                inputs.set(name, got);
                Ok(())
            }
            Err(stop) => Err(stop),
        },
        None => Ok(()),
    }
}

// Reads the files that a command reads, in order.
fn read<S: Shelf>(alloc: Global, asked: &Asked<'_>, shelf: &mut S) -> Result<Inputs, OutsideStop>
    ensures read { IfOk result (AreReadUnder (S.contents shelf.old) (form asked.now.verb).reads asked.now) }
    ensures only { OnlyReads S.Shelf shelf.old shelf.new (GetFails (inputs_of asked.now)) result }
{
    let mut inputs = Inputs::new(alloc);
    let reads = asked.verb.reads();
    for name in reads {
        match read_under(alloc, asked, name, shelf, &mut inputs) {
            Ok(()) => {}
            Err(stop) => return Err(stop),
        }
    }
    Ok(inputs)
}

// What a command of this verb comes to on what was read of its input files.
fn outcome_by(
    alloc: Global,
    verb: Verb,
    asked: &Asked<'_>,
    inputs: Inputs,
) -> Result<Outcome, Memory>
    requires size { verb ≡ verbs.Bench → IsOfRange 2 100 asked.now.size }
    requires domain { IsWithin most_bytes inputs.domain }
    requires problem { IsWithin most_bytes inputs.problem }
    requires plan { IsWithin most_bytes inputs.plan }
    requires written { IsWithin most_bytes inputs.written }
    requires read { (held : Option FileMap) × AreReadUnder held (form verb).reads asked.now inputs }
    ensures { (held : Option FileMap) (t : Contents) → AreContentsUnder (form verb).reads held asked.now t → AreInputs t inputs → IfOk result (ComesBy verb asked.now t) }
{
    let Inputs {
        domain,
        problem,
        merges,
        plan,
        written,
    } = inputs;
    match verb {
        Verb::Translate => { translate_on(alloc, asked, domain, problem, origin_of(asked, merges)) }
        Verb::Solve => solve_on(alloc, asked, domain, problem, origin_of(asked, merges)),
        Verb::Classical => classical_on(alloc, asked, domain, problem),
        Verb::Strip => strip_text(alloc, written),
        Verb::Lift => lift_on(
            alloc,
            asked,
            domain,
            problem,
            origin_of(asked, merges),
            plan,
        ),
        Verb::Check => check_on(alloc, asked, domain, problem, plan),
        Verb::Width => width_on(alloc, asked, domain, problem),
        Verb::Merges => merges_on(alloc, asked, domain, problem),
        Verb::Bench => bench(alloc, asked),
    }
}

// What a command comes to. At `Err` a read failed, or memory ran out.
fn come_to<S: Shelf>(
    alloc: Global,
    asked: &Asked<'_>,
    shelf: &mut S,
) -> Result<Outcome, OutsideStop>
    requires { asked.now.verb ≡ verbs.Bench → IsOfRange 2 100 asked.now.size }
    ensures comes_to { IfOk result (λ o. (t : Contents) × AreContents (S.contents shelf.old) asked.now t × ComesTo asked.now t o) }
    ensures only { OnlyReads S.Shelf shelf.old shelf.new (GetFails (inputs_of asked.now)) result }
{
    let inputs = read(alloc, asked, shelf)?;
    let outcome = outcome_by(alloc, asked.verb, asked, inputs)?;
    Ok(outcome)
}

// The outcome that is due of texts. At `Err` a read failed, or memory ran out.
fn due_of<S: Shelf>(alloc: Global, texts: &[&str], shelf: &mut S) -> Result<Outcome, OutsideStop>
    ensures due { (words : List (Vector ℕ Alloc)) → map (λ w. w.items) words ≡ texts_of texts.now → AreUtf8 (map (λ w. w.items) words) → IfOk result (IsDue words (S.contents shelf.old)) }
    ensures only { (words : List (Vector ℕ Alloc)) → map (λ w. w.items) words ≡ texts_of texts.now → AreUtf8 (map (λ w. w.items) words) → OnlyReads S.Shelf shelf.old shelf.new (InputFails words) result }
{
    match asked_by(alloc, texts) {
        Ok(asked) => come_to(alloc, &asked, shelf),
        Err(WordStop::Usage) => Ok(usage_outcome(alloc)?),
        Err(WordStop::Memory) => Err(OutsideStop::Memory),
    }
}

// The outcome that is due. At `Err` a read failed, or memory ran out.
fn due<S: Shelf>(alloc: Global, words: &[Vec<u8>], shelf: &mut S) -> Result<Outcome, OutsideStop>
    ensures due { IfOk result (IsDue words.now (S.contents shelf.old)) }
    ensures only { OnlyReads S.Shelf shelf.old shelf.new (InputFails words.now) result }
{
    match as_texts(alloc, words)? {
        Some(texts) => {
            let outcome = due_of(alloc, texts.as_slice(), shelf);
            drop(texts);
            outcome
        }
        None => Ok(usage_outcome(alloc)?),
    }
}

/// Carries out the command of the words after the program's name.
///
/// The files that the command names are read from the shelf and put on it; what it prints is
/// written to the sink.
pub fn run<S: Shelf, O: Sink>(
    alloc: Global,
    words: &[Vec<u8>],
    shelf: &mut S,
    out: &mut O,
) -> Status
    // The outcome that is due is carried out as far as the run comes, or a read fails, or memory runs out before.
    ensures ends { over S.Shelf O.Sink shelf.old shelf.new out.old out.new (Ends words.now) result }
    // Of a `translate`, where the shelf tells what it holds: with Done, what was read has a problem with an initial state, in
    // which no action clashes, each merge of its table is valid, and each plan of what was put strips to a plan of it.
    ensures sound { over S.Shelf O.Sink shelf.old shelf.new out.old out.new (IsSoundRun words.now) result }
    // Of a `lift`, where the shelf tells what it holds. Take a run of `translate` on files with the same contents, with the
    // same mode or merges and no greater limit of prime implicates, that told `complete`; and let the plan file, within the
    // limit of bytes, hold a plan of these files. The lift told a plan of the files that `translate` wrote, which strips to
    // it; or memory ran out, or the outside failed.
    ensures complete { over S.Shelf O.Sink shelf.old shelf.new out.old out.new (IsCompleteRun Ends words.now) result }
    // Of a `solve`, where the shelf tells what it holds: with Done, what was told is a plan of its two files; with Negative,
    // what `translate` writes for them has none; with Spent, more states can be reached there than its budget says.
    ensures solve { over S.Shelf O.Sink shelf.old shelf.new out.old out.new (IsSolveRun words.now) result }
    // And so it is of the files of `classical`.
    ensures classical { over S.Shelf O.Sink shelf.old shelf.new out.old out.new (IsClassicalRun words.now) result }
{
    match due(alloc, words, shelf) {
        Ok(outcome) => carry_out(alloc, outcome, shelf, out),
        Err(stop) => stopped(stop, Status::ReadFault),
    }
}
