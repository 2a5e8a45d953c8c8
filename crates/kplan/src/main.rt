//! The program: the files of the machine, standard output, and one run.
#![tactic(auto)]

ghost use Rattle.std.specs.Prelude.{◌≡◌};
ghost use Rattle.std.specs.Process.{exit_status};
ghost use Rattle.kp_run_outcome.specs.declared.status.Status.{Status as Ended};
ghost use Rattle.kp_run_outcome.specs.Ends.{over};
ghost use Rattle.kp_run_outcome.specs.Numbers.{number_of};
ghost use Rattle.kp_run.specs.Ends.{Ends};

use kp_outside::{FileShelf, OutSink, Shelf, Sink};
use kp_run::{Status, run};
use std::alloc::{AllocError, Global};
use std::env;
use std::io::ErrorKind;
use std::process::ExitCode;

// The words after the program's name. Where one of them is no text there are none.
fn words_of(rt: &HostRuntime, alloc: Global) -> Result<Vec<Vec<u8>>, AllocError> {
    let mut words = Vec::new(alloc);
    match env::args(rt) {
        Ok(args) => {
            for word in args.skip(1) {
                words.push(word.into_bytes())?;
            }
        }
        Err(error) if error.kind() == ErrorKind::OutOfMemory => return Err(AllocError),
        Err(_) => {}
    }
    Ok(words)
}

// The number with which the program ends.
fn exit_code(status: &Status) -> ExitCode
    ensures { exit_status result ≡ number_of status.now }
{
    ExitCode::from(status.number())
}

// Carries out the command of the words on a shelf and a sink, and gives the number with which the program ends.
fn carried<S: Shelf, O: Sink>(
    alloc: Global,
    words: &[Vec<u8>],
    shelf: &mut S,
    out: &mut O,
) -> ExitCode
    ensures { (s : Ended) × over S.Shelf O.Sink shelf.old shelf.new out.old out.new (Ends words.now) s × (exit_status result ≡ number_of s) }
{
    exit_code(&run(alloc, words, shelf, out))
}

fn main(rt: HostRuntime) -> ExitCode {
    let alloc = rt.alloc();
    match words_of(&rt, alloc) {
        Ok(words) => carried(
            alloc,
            &words,
            &mut FileShelf::new(&rt),
            &mut OutSink::new(&rt),
        ),
        Err(_) => exit_code(&Status::Memory),
    }
}
