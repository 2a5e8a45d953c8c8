ghost use Rattle.std.specs.Prelude.{◌≡◌, ℕ, List, Option, OnOk, OnErr, IfOk};
ghost use Rattle.kp_outside.specs.declared.outside.OutsideStop.TheVariants.{Memory as OutOfMemory};
ghost use Rattle.kp_outside.specs.Outside.{FileMap, Counts, Counted, Gets, IsWithin, AddsFront, with_file, without_file, with_bytes};

use kp_base::{Memory, Row};
use std::alloc::Global;
use std::io;
use thiserror::Error;

/// Why a call on the outside gave nothing.
#[derive(Clone, Copy, Debug, PartialEq, Eq, Error)]
pub enum OutsideStop {
    /// The outside refused. The count of faults rose.
    #[error("failed")]
    Failed,
    /// There was no memory. No count rose.
    #[error("out of memory")]
    Memory,
}

impl From<Memory> for OutsideStop {
    ghost from_gives = { λ _ e. e ≡ OutOfMemory };

    fn from(_: Memory) -> OutsideStop {
        OutsideStop::Memory
    }
}

impl From<io::Error> for OutsideStop {
    ghost use Rattle.kp_outside.specs.Edge.{IsToldAs};

    ghost from_gives = { λ error stop. IsToldAs error stop };

    fn from(error: io::Error) -> OutsideStop {
        if error.kind() == io::ErrorKind::OutOfMemory {
            OutsideStop::Memory
        } else {
            OutsideStop::Failed
        }
    }
}

/// The first bytes of a content, and whether there are more.
#[derive(Drop)]
pub struct Got {
    /// As many of the first bytes as were asked for, or all.
    pub bytes: Row<u8>,
    /// Whether the content goes on after them.
    pub more: bool,
}

/// Contents under names, as files are. Any bytes may be a name.
pub trait Shelf {
    /// What is held, where the shelf tells it.
    ghost contents: { Self → Option FileMap };

    /// How many gets of each name have failed.
    ghost get_faults: { Self → List ℕ → ℕ };

    /// How many puts of each name have failed.
    ghost put_faults: { Self → List ℕ → ℕ };

    /// The first bytes of a content, at most `most`. It fails for a name under which nothing is held.
    fn get(&mut self, alloc: Global, name: &[u8], most: usize) -> Result<Got, OutsideStop>
        ensures got { IfOk result (Gets (contents self.old) name.now most) }
        ensures within { IfOk result (IsWithin most) }
        ensures contents { contents self.new ≡ contents self.old }
        ensures faults { Counts result name.now (get_faults self.old) (get_faults self.new) }
        ensures put_faults { (q : List ℕ) → put_faults self.new q ≡ put_faults self.old q };

    /// Sets the content of a name. At an `Err` that content is open, and all others are as before.
    fn put(&mut self, alloc: Global, name: &[u8], bytes: &[u8]) -> Result<(), OutsideStop>
        ensures put { OnOk result (contents self.new ≡ with_file (contents self.old) name.now bytes.now) }
        ensures others { without_file (contents self.new) name.now ≡ without_file (contents self.old) name.now }
        ensures faults { Counts result name.now (put_faults self.old) (put_faults self.new) }
        ensures get_faults { (q : List ℕ) → get_faults self.new q ≡ get_faults self.old q };
}

/// Where text is printed.
pub trait Sink {
    /// The bytes written so far, where the sink tells them.
    ghost told: { Self → Option (List ℕ) };

    /// How many writes have failed.
    ghost faults: { Self → ℕ };

    /// Writes the bytes. At an `Err` some of the first of them are written.
    fn write(&mut self, alloc: Global, bytes: &[u8]) -> Result<(), OutsideStop>
        ensures written { OnOk result (told self.new ≡ with_bytes (told self.old) bytes.now) }
        ensures err { OnErr result (AddsFront (told self.old) (told self.new) bytes.now) }
        ensures faults { Counted result (faults self.old) (faults self.new) };
}
