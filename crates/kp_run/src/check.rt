ghost use Rattle.std.specs.Prelude.{◌≡◌, ◌<◌, Some, List, ℕ, true, nat_lt, codes, IfOk, length};
ghost use Rattle.std.specs.List.{list_all};
ghost use Rattle.kp_base.specs.declared.ground.Initial.{Initial as Formula};
ghost use Rattle.kp_base.specs.Entailed.{HaveSameModels};
ghost use Rattle.kp_base.specs.Files.{most_bytes};
ghost use Rattle.kp_outside.specs.Outside.{IsFront, IsWithin};
ghost use Rattle.kp_primes.specs.Held.{formula};
ghost use Rattle.kp_run_inputs.specs.Actions.{ComesByPlan};
ghost use Rattle.kp_run_messages.specs.Counterexamples.{counterexample_text};
ghost use Rattle.kp_run_outcome.specs.Printing.{prints, denies};
ghost use Rattle.kp_run.specs.Check.{tells, ChecksTexts, TellsJudged};

use crate::outcomes::{failing, print_text};
use kp_base::{AtomId, Ground, Lit, Memory, Row};
use kp_check::{Judged, check};
use kp_outside::Got;
use kp_run_inputs::{actions_of, settle};
use kp_run_messages::counterexample;
use kp_run_outcome::{Outcome, Status};
use kp_run_prepare::{Prepared, prepare};
use kp_words::Asked;
use std::alloc::Global;

// `yes` is printed.
fn tell_yes(alloc: Global) -> Result<Outcome, Memory>
    ensures { IfOk result (λ o. o ≡ prints (codes "yes\n")) }
{
    Ok(print_text(alloc, Row::from_vec(b"yes\n".to_vec(alloc)?)))
}

// A plan fails from some initial state, at this step of so many, or at the goal, by this literal.
fn tell_no(
    alloc: Global,
    ground: &Ground,
    state: &[AtomId],
    step: Option<u32>,
    literal: Lit,
) -> Result<Outcome, Memory>
    ensures { IfOk result (λ o. o ≡ denies (counterexample_text ground.now.atoms state.now step literal)) }
{
    let text = counterexample(alloc, ground.atoms.slice(), state, step, literal)?;
    Ok(Outcome {
        status: Status::Negative,
        puts: Row::new(alloc),
        text,
    })
}

// What is told of steps of which it is known whether they work.
fn tell(alloc: Global, ground: &Ground, steps: usize, judged: Judged) -> Result<Outcome, Memory>
    ensures { IfOk result (λ o. o ≡ tells ground.now steps judged) }
{
    match judged {
        Judged::Yes => tell_yes(alloc),
        Judged::No {
            state,
            step,
            literal,
        } => tell_no(alloc, ground, state.slice(), failing(steps, step), literal),
    }
}

// Whether actions by number work, which is told.
fn judge(alloc: Global, prepared: &Prepared, numbers: &Row<u32>) -> Result<Outcome, Memory>
    requires inside { list_all (λ m. nat_lt m (length prepared.now.ground.actions)) numbers.now ≡ true }
    requires few { length numbers.now < 2147483648 }
    ensures { IfOk result (TellsJudged prepared.now.ground (formula prepared.now.primes) numbers.now) }
{
    let judged = check(alloc, &prepared.ground, &prepared.primes, numbers)?;
    tell(alloc, &prepared.ground, numbers.len(), judged)
}

// Whether the actions of a plan file work, of which at most 16,777,216 bytes were read; or a refusal.
fn check_plan(alloc: Global, prepared: &Prepared, plan: Got) -> Result<Outcome, Memory>
    requires { IsWithin most_bytes plan }
    ensures { (text : List ℕ) (i : Formula) → IsFront (Some text) most_bytes plan → HaveSameModels (formula prepared.now.primes) i → IfOk result (ComesByPlan prepared.now.ground text (TellsJudged prepared.now.ground i)) }
{
    match actions_of(alloc, prepared, plan) {
        Ok(numbers) => judge(alloc, prepared, &numbers),
        Err(early) => settle(early),
    }
}

/// What a check comes to on what was read of its files.
pub fn check_on(
    alloc: Global,
    asked: &Asked<'_>,
    domain: Got,
    problem: Got,
    plan: Got,
) -> Result<Outcome, Memory>
    requires domain { IsWithin most_bytes domain }
    requires problem { IsWithin most_bytes problem }
    requires plan { IsWithin most_bytes plan }
    ensures { (x y text : List ℕ) → IsFront (Some x) most_bytes domain → IsFront (Some y) most_bytes problem → IsFront (Some text) most_bytes plan → IfOk result (ChecksTexts asked.now x y text) }
{
    match prepare(alloc, asked.implicates, domain, problem) {
        Ok(prepared) => check_plan(alloc, &prepared, plan),
        Err(early) => settle(early),
    }
}
