ghost use Rattle.std.specs.Prelude.{◌+◌, ◌≤◌, ◌≢◌, length, Some, OnOk, IfOk, IfErr, IfSome};
ghost use Rattle.std.specs.Io.{ReadsAtMost};
ghost use Rattle.std.specs.Io.KnownBytes.{Consumes, Appends, IsAtEnd, ReadConsumes};
ghost use Rattle.std.specs.IoError.{error_kind};
ghost use Rattle.kp_outside.specs.Outside.{IsFront, IsWithin};
ghost use Rattle.kp_outside.specs.Transfer.{TakesAtMost};

use crate::{Got, OutsideStop};
use kp_base::Row;
use std::alloc::Global;
use std::io;
use std::io::{ErrorKind, Read, Write};

// How many bytes one read asks for at most.
const CHUNK: usize = 8192;

// One read, tried again where it is interrupted.
fn read_again<F: Read>(file: &mut F, buffer: &mut [u8]) -> io::Result<usize>
    ensures bound { ReadsAtMost result buffer.new }
    ensures bytes { ReadConsumes (F.remaining file.old) (F.remaining file.new) result buffer.new }
    ensures retried { IfErr result (λ e. error_kind e ≢ ErrorKind.Interrupted) }
{
    for _ in 0..u64::MAX {
        match file.read(buffer) {
            Err(error) if error.kind() == ErrorKind::Interrupted => {}
            read => return read,
        }
    }
    Err(io::Error::from(ErrorKind::TimedOut))
}

// Reads to the end, or until there is a byte more than `most`.
fn read_past<F: Read>(file: &mut F, alloc: Global, most: usize) -> Result<Vec<u8>, OutsideStop>
    ensures bound { IfOk result (λ v. length v.items ≤ most + 1) }
    ensures bytes { IfOk result (λ v. Consumes (F.remaining file.old) (F.remaining file.new) v.items) }
    ensures end { IfOk result (λ v. length v.items ≤ most → IsAtEnd (F.remaining file.new)) }
    ensures taken { TakesAtMost (most + 1) (F.remaining file.old) (F.remaining file.new) }
{
    let mut bytes = Vec::new(alloc);
    let mut buffer = [0u8; CHUNK];
    while bytes.len() <= most {
        let want = buffer.len().min((most - bytes.len()).saturating_add(1));
        match read_again(file, &mut buffer[..want])? {
            0 => break,
            n => bytes
                .extend_from_slice(&buffer[..n])
                .map_err(|_| OutsideStop::Memory)?,
        }
    }
    Ok(bytes)
}

// The first bytes of what is left to read, at most that many. It reads one more at most.
pub(crate) fn read_front<F: Read>(
    file: &mut F,
    alloc: Global,
    most: usize,
) -> Result<Got, OutsideStop>
    ensures within { IfOk result (IsWithin most) }
    ensures front { IfSome (F.remaining file.old) (λ content. IfOk result (IsFront (Some content) most)) }
    ensures taken { TakesAtMost (most + 1) (F.remaining file.old) (F.remaining file.new) }
{
    let mut bytes = read_past(file, alloc, most)?;
    let more = bytes.len() > most;
    bytes.truncate(most);
    Ok(Got {
        bytes: Row::from_vec(bytes),
        more,
    })
}

// Writes all the bytes, by as many writes as it takes, or fails.
pub(crate) fn write_whole<F: Write>(file: &mut F, bytes: &[u8]) -> Result<(), OutsideStop>
    ensures { OnOk result (Appends (F.contents file.old) (F.contents file.new) bytes.now) }
{
    file.write_all(bytes)?;
    Ok(file.flush()?)
}
