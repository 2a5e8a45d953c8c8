//! The row of a target, once the places of its clauses are known.
ghost use Rattle.std.specs.Prelude.{IfOk};
ghost use Rattle.kp_primes.specs.Held.{formula};
ghost use Rattle.kp_width.specs.Found.{IsRowAt};

use crate::report::WidthRow;
use kp_base::{Lit, LitSet, Memory};
use kp_cover::{cov, picked};
use kp_primes::Primes;
use std::alloc::Global;

/// The row with the clauses at some places.
pub fn row_at(
    alloc: Global,
    primes: &Primes,
    clauses: &[LitSet],
    places: &[u32],
    target: Lit,
) -> Result<WidthRow, Memory>
    ensures { IfOk result (IsRowAt (formula primes.now) clauses.now places.now target) }
{
    let set = picked(alloc, clauses, places)?;
    let tags = cov(alloc, primes, &set)?;
    Ok(WidthRow {
        target,
        clauses: set,
        tags,
    })
}
