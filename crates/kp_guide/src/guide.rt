//! The guide that keeps an estimate.
ghost use Rattle.std.specs.Prelude.{◌≡◌};
ghost use Rattle.kp_classic.specs.Fits.{IsFit};
ghost use Rattle.kp_guide.specs.Guides.{MayBeAsked, MayAnswer, IsRight};

use crate::Estimator;
use kp_base::Memory;
use kp_classic::{State, Task};

/// An estimate of how far the goal of a task is from a state; `None` says that no operators lead to it.
pub type Estimate = Box<dyn Fn(&Task, &State) -> Result<Option<u32>, Memory>>;

/// An estimate, and beside it what is known of it: it may be asked on each state of each task that fits, and answers `None`
/// only where no operators lead from the state to the goal.
#[derive(Drop)]
pub struct Guide {
    estimate: Estimate,
    ghost askable: { MayBeAsked (Estimate.pre estimate) },
    ghost right: { IsRight (MayAnswer (Estimate.post estimate)) },
}

impl Guide {
    /// Keeps an estimate.
    pub fn keep(estimate: Estimate) -> Guide
        requires askable { MayBeAsked (Estimate.pre estimate) }
        requires right { IsRight (MayAnswer (Estimate.post estimate)) }
        ensures { result.estimate ≡ estimate }
    {
        Guide { estimate }
    }
}

impl Estimator for Guide {
    ghost serves = { λ g t. IsFit t };

    ghost may_answer = { λ g. MayAnswer (Estimate.post g.estimate) };

    fn estimate(&self, task: &Task, state: &State) -> Result<Option<u32>, Memory> {
        (self.estimate)(task, state)
    }

    fn is_right(&self) {
        let _estimate = &self.estimate;
    }
}
