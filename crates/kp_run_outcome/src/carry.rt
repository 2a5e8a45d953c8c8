ghost use Rattle.std.specs.Prelude.{◌≡◌, ◌≢◌, ℕ, List, [], Err, OnOk, OnErr, IsErrOf};
ghost use Rattle.kp_outside.specs.declared.outside.OutsideStop.TheVariants as stops;
ghost use Rattle.kp_outside.specs.Outside.{Counted, Rises, AddsFront, with_bytes};
ghost use Rattle.kp_run_outcome.specs.declared.outcome.FilePut.{FilePut as Put};
ghost use Rattle.kp_run_outcome.specs.Ends.{IsAnswer, StopsAt, CarriesOut, over, with_files, stop_of};

use crate::outcome::{FilePut, Outcome};
use crate::status::Status;
use kp_base::Row;
use kp_outside::{OutsideStop, Shelf, Sink};
use std::alloc::Global;

/// How a command ends where a call on the outside stopped: by this fault where it failed.
pub fn stopped(stop: OutsideStop, fault: Status) -> Status
    ensures { result ≡ stop_of stop fault }
{
    match stop {
        OutsideStop::Failed => fault,
        OutsideStop::Memory => Status::Memory,
    }
}

// Prints by one write, where there is something to print.
fn print<O: Sink>(alloc: Global, out: &mut O, text: &Row<u8>) -> Result<(), OutsideStop>
    ensures written { OnOk result (O.told out.new ≡ with_bytes (O.told out.old) text.now) }
    ensures err { OnErr result (AddsFront (O.told out.old) (O.told out.new) text.now) }
    ensures faults { Counted result (O.faults out.old) (O.faults out.new) }
    // A text of no bytes isn't written.
    ensures some { OnErr result (text.now ≢ []) }
    ensures unprinted { text.now ≡ [] → out.new ≡ out.old }
{
    if text.len() == 0 {
        return Ok(());
    }
    out.write(alloc, text.slice())
}

// Puts the files, in order.
fn put_all<S: Shelf>(alloc: Global, puts: &[FilePut], shelf: &mut S) -> Result<(), OutsideStop>
    ensures ok { OnOk result (S.contents shelf.new ≡ with_files (S.contents shelf.old) puts.now) }
    ensures stops { OnErr result ((file : Put) × StopsAt puts.now (S.contents shelf.old) (S.contents shelf.new) file × (IsErrOf result stops.Failed → Rises (S.put_faults shelf.old file.name) (S.put_faults shelf.new file.name))) }
    ensures put_faults { result ≢ Err stops.Failed → (q : List ℕ) → S.put_faults shelf.new q ≡ S.put_faults shelf.old q }
    ensures get_faults { (q : List ℕ) → S.get_faults shelf.new q ≡ S.get_faults shelf.old q }
{
    for file in puts {
        shelf.put(alloc, file.name.slice(), file.content.slice())?;
    }
    Ok(())
}

/// Puts the files of an outcome, in order, and then prints its text, where it has one.
pub fn carry_out<S: Shelf, O: Sink>(
    alloc: Global,
    outcome: Outcome,
    shelf: &mut S,
    out: &mut O,
) -> Status
    requires { IsAnswer outcome.status }
    ensures ends { over S.Shelf O.Sink shelf.old shelf.new out.old out.new (CarriesOut outcome) result }
    ensures unprinted { outcome.text ≡ [] → out.new ≡ out.old }
{
    match put_all(alloc, outcome.puts.slice(), shelf) {
        Ok(()) => match print(alloc, out, &outcome.text) {
            Ok(()) => outcome.status,
            Err(cause) => stopped(cause, Status::WriteFault),
        },
        Err(stop) => stopped(stop, Status::WriteFault),
    }
}
