//! The texts of a generated problem, and what is read of them.
ghost use Rattle.std.specs.Prelude.{◌≡◌, Some, IfOk};
ghost use Rattle.kp_base.specs.Files.{most_bytes};
ghost use Rattle.kp_outside.specs.Outside.{IsFront, IsWithin};
ghost use Rattle.kp_words.specs.Options.{IsOfRange};
ghost use Rattle.kp_run_bench.specs.Bench.{family_texts};

use kp_base::{Memory, Row, Texts};
use kp_gen::{bombs_problem, line_problem};
use kp_outside::Got;
use kp_words::Family;
use std::alloc::Global;

// How many bytes of a text are read at most.
const MOST: usize = 16_777_216;

/// The texts of a family's problem.
pub fn texts_of(alloc: Global, family: Family, n: u32) -> Result<Texts, Memory>
    requires { IsOfRange 2 100 n }
    ensures { IfOk result (λ texts. texts ≡ family_texts family n) }
{
    match family {
        Family::Line => line_problem(alloc, n),
        Family::Bombs => bombs_problem(alloc, n),
    }
}

/// The first 16,777,216 bytes of a text, and whether there are more.
pub fn front(text: Row<u8>) -> Got
    ensures within { IsWithin most_bytes result }
    ensures front { IsFront (Some text) most_bytes result }
{
    let mut bytes = text.into_vec();
    let more = bytes.len() > MOST;
    bytes.truncate(MOST);
    Got {
        bytes: Row::from_vec(bytes),
        more,
    }
}
