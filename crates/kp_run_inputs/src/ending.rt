ghost use Rattle.kp_run_inputs.specs.Ending.{Settles};

use kp_base::Memory;
use kp_run_outcome::Outcome;
use kp_run_prepare::Early;

/// What a command comes to that ends early.
pub fn settle(early: Early) -> Result<Outcome, Memory>
    ensures { Settles early result }
{
    match early {
        Early::With(outcome) => Ok(outcome),
        Early::Memory => Err(Memory),
    }
}
