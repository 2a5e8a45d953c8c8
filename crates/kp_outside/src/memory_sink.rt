ghost use Rattle.std.specs.Prelude.{◌≡◌, ◌↔◌, ℕ, [], ◌∷◌, ◌++◌, take, Some, OnOk, OnErr, IfOk, IsErrOf};
ghost use Rattle.kp_outside.specs.Outside.{Counted, AddsFront, with_bytes};
ghost use Rattle.kp_outside.specs.Numbered.{next, IsFailing, faults_after};
ghost use Rattle.kp_outside.specs.MemorySink.{new_sink};

use crate::{OutsideStop, Sink};
use kp_base::{Memory, Row};
use std::alloc::Global;
use std::marker::Model;

/// A sink in memory, some of whose calls fail.
///
/// Its writes are numbered from 1. A write fails where its number was given to
/// [`MemorySink::fail_at`].
#[derive(Drop)]
pub struct MemorySink {
    bytes: Row<u8>,
    calls: u64,
    failing: Row<u64>,
    faults: u64,
}

impl Model for MemorySink {
    ghost use Rattle.kp_outside.specs.MemorySink.{Written};

    ghost Value = { Written };

    ghost view = { λ s. record { bytes = s.bytes; calls = s.calls; failing = s.failing; faults = s.faults } };
}

// Adds the bytes at the end. At `Memory` some of the first of them are added.
fn append(row: &mut Row<u8>, bytes: &[u8]) -> Result<(), Memory>
    ensures ok { OnOk result (row.new ≡ row.old ++ bytes.now) }
    ensures err { OnErr result ((k : ℕ) × (row.new ≡ row.old ++ take k bytes.now)) }
{
    for byte in bytes {
        row.push(*byte)?;
    }
    Ok(())
}

impl MemorySink {
    /// A sink to which nothing is written, none of whose calls fails.
    pub fn new(alloc: Global) -> Result<MemorySink, Memory>
        ensures { IfOk result (λ s. s ≡ new_sink) }
    {
        Ok(MemorySink {
            bytes: Row::new(alloc),
            calls: 0,
            failing: Row::new(alloc),
            faults: 0,
        })
    }

    /// Makes the call of that number fail. This is no call that is numbered. At `Memory` all is as
    /// before.
    pub fn fail_at(&mut self, call: u64) -> Result<(), Memory>
        ensures ok { OnOk result (self.new ≡ record self.old { failing = self.old.failing ++ call ∷ [] }) }
        ensures err { OnErr result (self.new ≡ self.old) }
    {
        self.failing.push(call)
    }

    /// The bytes written so far.
    pub fn bytes(&self) -> &Row<u8>
        ensures { result.now ≡ self.now.bytes }
    {
        &self.bytes
    }
}

impl Sink for MemorySink {
    ghost told = { λ s. Some s.bytes };

    ghost faults = { λ s. s.faults };

    fn write(&mut self, alloc: Global, bytes: &[u8]) -> Result<(), OutsideStop>
        ensures written { OnOk result (Some self.new.bytes ≡ with_bytes (Some self.old.bytes) bytes.now) }
        ensures err { OnErr result (AddsFront (Some self.old.bytes) (Some self.new.bytes) bytes.now) }
        ensures faults { Counted result self.old.faults self.new.faults }
        ensures failed { IsErrOf result OutsideStop.Failed ↔ IsFailing self.old.failing self.old.calls }
        ensures nothing { IsErrOf result OutsideStop.Failed → self.new.bytes ≡ self.old.bytes }
        ensures after { self.new ≡ record self.old { bytes = self.new.bytes; calls = next self.old.calls; faults = faults_after result self.old.faults } }
    {
        self.calls = self.calls.saturating_add(1);
        if self.failing.slice().contains(&self.calls) {
            self.faults = self.faults.saturating_add(1);
            return Err(OutsideStop::Failed);
        }
        Ok(append(&mut self.bytes, bytes)?)
    }
}
