ghost use Rattle.kp_run_prepare.specs.declared.prepared.Early.TheVariants.{Memory as OutOfMemory};
ghost use Rattle.kp_run_prepare.specs.OwnAtoms.{HasOwnAtoms};
ghost use Rattle.std.specs.Prelude.{◌≡◌, length};

use kp_base::{Ground, Memory};
use kp_primes::Primes;
use kp_run_outcome::Outcome;
use std::alloc::AllocError;

/// What a command goes on with. Both speak of the atoms of the ground problem alone.
#[derive(Drop)]
pub struct Prepared {
    /// The ground problem, in which no action clashes.
    pub ground: Ground,
    /// The prime implicates of its initial formula.
    pub primes: Primes,
    pub ghost of_atoms: { HasOwnAtoms ground.atoms ground.table ground.actions ground.goal },
    pub ghost atoms: { length ground.atoms ≡ primes.atoms },
}

/// What ends a command before it goes on.
#[derive(Drop)]
pub enum Early {
    /// The outcome of a refusal.
    With(Outcome),
    /// Memory ran out.
    Memory,
}

impl From<Memory> for Early {
    ghost from_gives = { λ _ early. early ≡ OutOfMemory };

    fn from(_: Memory) -> Early {
        Early::Memory
    }
}

impl From<AllocError> for Early {
    ghost from_gives = { λ _ early. early ≡ OutOfMemory };

    fn from(_: AllocError) -> Early {
        Early::Memory
    }
}
