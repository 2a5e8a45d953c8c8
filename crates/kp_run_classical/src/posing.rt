ghost use Rattle.std.specs.Prelude.{◌≡◌, Some, None, List, ℕ, length};
ghost use Rattle.kp_base.specs.Implicates.{IsOfItsAtoms};
ghost use Rattle.kp_base.specs.Files.{most_bytes};
ghost use Rattle.kp_ground_semantics.specs.Ground.{ground_of};
ghost use Rattle.kp_init.specs.Initial.{initial_of};
ghost use Rattle.kp_names.specs.View.{lifted_view};
ghost use Rattle.kp_outside.specs.Outside.{IsFront, IsWithin};
ghost use Rattle.kp_run_prepare.specs.Texts.{IsProblemOf};
ghost use Rattle.kp_run_classical.specs.Certain.{SaysAtMostOneState};
ghost use Rattle.kp_run_classical.specs.Classical.{AnswersClassical};
ghost use Rattle.kp_run_classical.specs.Numbered.{HasFacts, AnswersFormula, AnswersNumbers};

use crate::certain::has_model;
use crate::posed::Posed;
use kp_base::{Ground, Initial, Limits, Refused, Stop};
use kp_classic::task_of;
use kp_ground::ground;
use kp_init::initial;
use kp_names::Lifted;
use kp_outside::Got;
use kp_run_prepare::{Early, ended_by, read_files};
use std::alloc::Global;

// The task of a ground problem, if its initial formula has a model.
fn pose(alloc: Global, ground: Ground, initial: &Initial) -> Result<Posed, Early>
    requires of_atoms { IsOfItsAtoms ground }
    requires certain { SaysAtMostOneState (length ground.atoms) initial.now }
    ensures { AnswersFormula ground initial.now result }
{
    if !has_model(alloc, ground.atoms.len() as u32, initial)? {
        return Err(ended_by(alloc, Stop::Refused(Refused::NoInitialState)));
    }
    let task = task_of(alloc, &ground, initial)?;
    Ok(Posed { ground, task })
}

// The same with a ground problem.
fn on_ground(alloc: Global, lifted: &Lifted, made: Ground) -> Result<Posed, Early>
    requires facts { HasFacts (lifted_view lifted.now) }
    requires ground { made ≡ ground_of (lifted_view lifted.now) }
    requires of_atoms { IsOfItsAtoms made }
    ensures { AnswersFormula (ground_of (lifted_view lifted.now)) (initial_of (lifted_view lifted.now)) result }
{
    let formula = initial(alloc, lifted, &made)?;
    pose(alloc, made, &formula)
}

// The same with a problem by number: by its ground problem, or at a limit.
fn on_certain(alloc: Global, lifted: &Lifted) -> Result<Posed, Early>
    requires facts { HasFacts (lifted_view lifted.now) }
    ensures { AnswersNumbers (lifted_view lifted.now) result }
{
    match ground(alloc, lifted, &Limits::classical()) {
        Ok(made) => on_ground(alloc, lifted, made),
        Err(stop) => Err(ended_by(alloc, stop)),
    }
}

// The same, if nothing leaves the initial state open.
fn on_problem(alloc: Global, lifted: &Lifted) -> Result<Posed, Early>
    requires facts { lifted.now.unsure ≡ None → HasFacts (lifted_view lifted.now) }
    ensures { (d p : List ℕ) → IsProblemOf d p lifted.now → AnswersClassical d p result }
{
    match lifted.unsure {
        Some(place) => Err(ended_by(alloc, Stop::Refused(Refused::NotClassical(place)))),
        None => on_certain(alloc, lifted),
    }
}

/// The ground problem and the task of two classical files, at most 16,777,216 bytes of each of which were read; or the
/// outcome with which a command ends early.
pub fn prepare_classical(alloc: Global, domain: Got, problem: Got) -> Result<Posed, Early>
    requires domain { IsWithin most_bytes domain }
    requires problem { IsWithin most_bytes problem }
    ensures { (d p : List ℕ) → IsFront (Some d) most_bytes domain → IsFront (Some p) most_bytes problem → AnswersClassical d p result }
{
    match read_files(alloc, domain, problem) {
        Ok(lifted) => on_problem(alloc, &lifted),
        Err(stop) => Err(ended_by(alloc, stop)),
    }
}
