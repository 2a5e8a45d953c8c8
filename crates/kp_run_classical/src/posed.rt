ghost use Rattle.kp_classic.specs.Fits.{IsFit};

use kp_base::Ground;
use kp_classic::Task;

/// What the command goes on with that solves two classical files.
#[derive(Drop)]
pub struct Posed {
    /// The ground problem.
    pub ground: Ground,
    /// Its task: fact i is atom i, and operator i is action i.
    pub task: Task,
    pub ghost fit: { IsFit task },
}
