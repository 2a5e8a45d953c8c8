ghost use Rattle.std.specs.Prelude.{◌≡◌};
ghost use Rattle.kp_words_options.specs.declared.stop.WordStop.TheVariants.{Memory as OutOfMemory};

use kp_base::Memory;
use std::alloc::{AllocError, AllocFailed};
use thiserror::Error;

/// Why words are no command.
#[derive(Clone, Copy, Debug, PartialEq, Eq, Error)]
pub enum WordStop {
    /// They are none.
    #[error("usage")]
    Usage,
    /// Memory ran out.
    #[error("out of memory")]
    Memory,
}

impl From<Memory> for WordStop {
    ghost from_gives = { λ _ e. e ≡ OutOfMemory };

    fn from(_: Memory) -> WordStop {
        WordStop::Memory
    }
}

impl From<AllocError> for WordStop {
    ghost from_gives = { λ _ e. e ≡ OutOfMemory };

    fn from(_: AllocError) -> WordStop {
        WordStop::Memory
    }
}

impl<T: Drop> From<AllocFailed<T>> for WordStop {
    ghost from_gives = { λ _ e. e ≡ OutOfMemory };

    fn from(_: AllocFailed<T>) -> WordStop {
        WordStop::Memory
    }
}
