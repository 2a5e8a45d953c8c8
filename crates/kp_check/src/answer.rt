ghost use Rattle.std.specs.Prelude.{◌≡◌, ◌<◌, true, length, nat_lt, IfOk};
ghost use Rattle.std.specs.List.{list_all};
ghost use Rattle.kp_primes.specs.Held.{formula};
ghost use Rattle.kp_base.specs.Implicates.{IsOfItsAtoms};
ghost use Rattle.kp_check.specs.Judging.{IsVerdict};

use crate::failing::{failure_in, state_values};
use crate::judge::first_failing;
use kp_base::{AtomId, Ground, Lit, Memory, Row};
use kp_primes::Primes;
use std::alloc::Global;

/// Whether a plan works from every initial state.
#[derive(Debug, Drop)]
pub enum Judged {
    /// It does.
    Yes,
    /// It doesn't.
    No {
        /// The first initial state from which it fails: the atoms that are true in it, in order.
        state: Row<AtomId>,
        /// The first step that fails, from 0; at the goal the number of all steps.
        step: u32,
        /// The least literal that is false there.
        literal: Lit,
    },
}

/// Whether the steps are a plan from every initial state; else the first from which they fail, and where.
pub fn check(
    alloc: Global,
    ground: &Ground,
    primes: &Primes,
    steps: &Row<u32>,
) -> Result<Judged, Memory>
    requires number { length ground.now.atoms ≡ primes.now.atoms }
    requires ground { IsOfItsAtoms ground.now }
    requires inside { list_all (λ m. nat_lt m (length ground.now.actions)) steps.now ≡ true }
    requires few { length steps.now < 2147483648 }
    ensures { IfOk result (IsVerdict primes.now.atoms ground.now (formula primes.now) steps.now) }
{
    let Some(state) = first_failing(alloc, ground, primes, steps.slice())? else {
        return Ok(Judged::Yes);
    };
    let values = state_values(alloc, primes.atoms(), state.slice())?;
    match failure_in(alloc, ground, steps.slice(), values)? {
        Some(at) => Ok(Judged::No {
            state,
            step: at.step,
            literal: at.literal,
        }),
        None => Ok(Judged::Yes),
    }
}
