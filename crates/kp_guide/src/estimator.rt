ghost use Rattle.std.specs.Prelude.{◌≡◌, Ok, None, length, IfOk};
ghost use Rattle.kp_classic.specs.Fits.{IsFit};
ghost use Rattle.kp_guide.specs.Guides.{IsHopeless, IsRight};

use kp_base::Memory;
use kp_classic::{State, Task};

/// What estimates how far the goal of a task is from a state.
pub trait Estimator {
    ghost use Rattle.std.specs.Prelude.{ℕ, Option};
    ghost use Rattle.kp_classic.specs.declared.task.Task.{Task};
    ghost use Rattle.kp_classic.specs.States.{FactSet};

    // The tasks whose states it estimates.
    ghost serves: { Self → Task → Type 0 };

    // What it may answer on a state of a task.
    ghost may_answer: { Self → Task → FactSet → Option ℕ → Type 0 };

    /// The estimate of a state; `None` says that no operators lead to the goal.
    fn estimate(&self, task: &Task, state: &State) -> Result<Option<u32>, Memory>
        requires serves { serves self.now task.now }
        requires fits { IsFit task.now }
        requires of_task { state.now.facts ≡ length task.now.facts }
        ensures answers { IfOk result (may_answer self.now task.now state.now) }
        ensures none { result ≡ Ok None → IsHopeless task.now state.now };

    /// It answers `None` only where no operators lead to the goal. A law; nothing runs.
    fn is_right(&self)
        ensures { IsRight (may_answer self.now) };
}
