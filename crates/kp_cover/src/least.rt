//! The least set of clauses that covers.
ghost use Rattle.std.specs.Prelude.{◌≡◌, ◌<◌, length, min, true, IfOk};
ghost use Rattle.std.specs.List.{list_all};
ghost use Rattle.kp_base.specs.Implicates.{are_below};
ghost use Rattle.kp_cover_subsets.specs.Sizes.{AnswersLeast};
ghost use Rattle.kp_cover.specs.Tested.{tells_cover};

use crate::tested::is_cover;
use kp_base::{LitSet, Memory};
use kp_cover_subsets::{LeastSet, Test, least_set};
use kp_primes::Primes;
use std::alloc::Global;

// Whether the tags of the clauses at some places cover all the clauses.
#[derive(Drop)]
struct Covering<'a> {
    primes: &'a Primes,
    clauses: &'a [LitSet],
    ghost below: { list_all (are_below primes.now.atoms) clauses.now ≡ true },
}

impl<'a> Test for Covering<'a> {
    ghost use Rattle.kp_cover.specs.Tested.{tells_cover};

    ghost passes = { λ t places. tells_cover t.primes.now t.clauses.now places };

    fn test(&self, alloc: Global, places: &[u32]) -> Result<bool, Memory> {
        let b = is_cover(alloc, self.primes, self.clauses, places)?;
        Ok(b)
    }
}

// How many there are. As many as the greatest `u32`, or more, are want of memory.
fn count(clauses: &[LitSet]) -> Result<u32, Memory>
    ensures number { IfOk result (λ n. n ≡ length clauses.now) }
    ensures few { IfOk result (λ n. n < 4294967295) }
{
    let n = clauses.len();
    if n >= u32::MAX as usize {
        return Err(Memory);
    }
    Ok(n as u32)
}

// The lesser of two numbers.
fn lesser(a: u32, b: u32) -> u32
    ensures { result ≡ min a b }
{
    if a < b { a } else { b }
}

/// The first of the least sets of the clauses that covers them all, of the sizes from a first to a last one. A size of
/// which there are more sets than the limit is skipped, where that is said, and else ends the search. No set has more
/// clauses than there are.
pub fn least_cover(
    alloc: Global,
    primes: &Primes,
    clauses: &[LitSet],
    first: u32,
    last: u32,
    limit: u64,
    skips: bool,
) -> Result<LeastSet, Memory>
    requires { list_all (are_below primes.now.atoms) clauses.now ≡ true }
    ensures { IfOk result (AnswersLeast (tells_cover primes.now clauses.now) (length clauses.now) limit skips first last) }
{
    let n = count(clauses)?;
    let test = Covering { primes, clauses };
    let found = least_set(alloc, &test, n, first, lesser(last, n), limit, skips)?;
    Ok(found)
}
