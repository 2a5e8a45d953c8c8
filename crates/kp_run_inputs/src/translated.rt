//! A problem with a table, and beside it the task that they are translated to.
ghost use Rattle.std.specs.Prelude.{◌≡◌};
ghost use Rattle.std.specs.Coded.{Coded-set};
ghost use Rattle.kp_ktask.specs.Translated.{FitsLimits};
ghost use Rattle.kp_law_ktask.specs.Task.{task_of};
ghost use Rattle.kp_run_prepare.specs.Prepared.{usual};

use crate::tabled::Tabled;
use kp_classic::Task;

/// A problem with a table and its task, which is within the limits.
#[derive(Drop)]
pub struct Translated {
    /// The problem and the table.
    pub tabled: Tabled,
    /// Their task.
    pub task: Task,
    pub ghost is_task: { task ≡ task_of tabled.related.prepared.ground tabled.table } by { Coded-set task-code task (task_of tabled.related.prepared.ground tabled.table) },
    pub ghost fits: { FitsLimits (task_of tabled.related.prepared.ground tabled.table) usual },
}
