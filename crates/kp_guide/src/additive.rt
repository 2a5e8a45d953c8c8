ghost use Rattle.std.specs.Prelude.{IfOk};
ghost use Rattle.kp_classic.specs.Fits.{IsFit};
ghost use Rattle.kp_guide.specs.Relaxed.{IsRelaxationOf};

use crate::Estimator;
use crate::relaxation::Relaxation;
use kp_base::Memory;
use kp_classic::{State, Task};
use std::alloc::Global;

/// The estimator of one task that answers the estimate `added`. It keeps the facts and rules that the goal may need.
#[derive(Drop)]
pub struct Additive {
    alloc: Global,
    relaxation: Relaxation,
}

impl Additive {
    /// The one of this task. Estimates are worked out in this memory.
    pub fn of(alloc: Global, task: &Task) -> Result<Additive, Memory>
        requires { IsFit task.now }
        ensures { IfOk result (λ a. IsRelaxationOf task.now a.relaxation) }
    {
        let relaxation = Relaxation::of(alloc, task)?;
        Ok(Additive { alloc, relaxation })
    }
}

impl Estimator for Additive {
    ghost use Rattle.kp_classic.specs.States.{has};
    ghost use Rattle.kp_guide.specs.Added.{IsAdded};
    ghost use Rattle.kp_guide.specs.Relaxed.{IsRelaxationOf};

    ghost serves = { λ a t. IsRelaxationOf t a.relaxation };

    ghost may_answer = { λ a t s. IsAdded t (has s.hold) };

    #[tactic(auto, using(crate::proofs::Placed::added_of))]
    fn estimate(&self, task: &Task, state: &State) -> Result<Option<u32>, Memory> {
        let estimate = self.relaxation.estimate(self.alloc, state)?;
        Ok(estimate)
    }

    #[tactic(auto, using(crate::proofs::Relaxed::added_right))]
    fn is_right(&self) {
        let _alloc = &self.alloc;
    }
}
