ghost use Rattle.std.specs.Prelude.{◌≡◌};
ghost use Rattle.kp_tree_cursor.specs.declared.halt.Halt.TheVariants.{Memory as OutOfMemory};

use kp_base::Memory;
use std::alloc::{AllocError, AllocFailed};

/// Why no tree was read: want of memory, or a token at which the form stops.
/// A token is told by its number; the end of the file by the number of tokens.
#[derive(Clone, Copy, Debug, PartialEq, Eq)]
pub enum Halt {
    /// Want of memory.
    Memory,
    /// The form doesn't go on with this token.
    Syntax(usize),
    /// This token begins a part of the language that is left out.
    Unsupported(usize),
}

impl From<Memory> for Halt {
    ghost from_gives = { λ _ e. e ≡ OutOfMemory };

    fn from(_: Memory) -> Halt {
        Halt::Memory
    }
}

impl From<AllocError> for Halt {
    ghost from_gives = { λ _ e. e ≡ OutOfMemory };

    fn from(_: AllocError) -> Halt {
        Halt::Memory
    }
}

impl<T: Drop> From<AllocFailed<T>> for Halt {
    ghost from_gives = { λ _ e. e ≡ OutOfMemory };

    fn from(_: AllocFailed<T>) -> Halt {
        Halt::Memory
    }
}
