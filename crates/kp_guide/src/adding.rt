//! The estimate `added`.
ghost use Rattle.std.specs.Prelude.{◌≡◌, length, IfOk};
ghost use Rattle.kp_classic.specs.Fits.{IsFit};
ghost use Rattle.kp_classic.specs.States.{has};
ghost use Rattle.kp_guide.specs.Added.{IsAdded};

use crate::relaxation::Relaxation;
use kp_base::Memory;
use kp_classic::{State, Task};
use std::alloc::Global;

/// The estimate `added` of a state: what the facts that the goal asks for cost together. `None` where one of them is out of
/// reach. Who asks often for states of one task asks an `Additive`.
#[tactic(auto, using(crate::proofs::Placed::added_of))]
pub fn added(alloc: Global, task: &Task, state: &State) -> Result<Option<u32>, Memory>
    requires fits { IsFit task.now }
    requires of_task { state.now.facts ≡ length task.now.facts }
    ensures { IfOk result (IsAdded task.now (has state.now.hold)) }
{
    let relaxation = Relaxation::of(alloc, task)?;
    let estimate = relaxation.estimate(alloc, state)?;
    Ok(estimate)
}
