//! The first set that passes a test, by sizes.
ghost use Rattle.std.specs.Prelude.{◌<◌, IfOk};
ghost use Rattle.kp_cover_subsets.specs.Sizes.{AnswersLeast};
ghost use Rattle.kp_cover_subsets.specs.Searched.{AnswersSize};

use crate::count::count_sets;
use crate::search::{Test, first_set};
use kp_base::Memory;
use std::alloc::Global;

/// What a search by size ended with.
#[derive(Drop)]
pub enum LeastSet {
    /// The first set that passes, of the least size at which one does.
    Found {
        /// The size.
        size: u32,
        /// The places, ascending.
        places: Vec<u32>,
    },
    /// No smaller set passes, and there are more sets of this size than the limit. None of them was tried.
    TooMany {
        /// The size.
        size: u32,
    },
    /// No set that was tried passes.
    Nothing,
}

// Tries the sets of one size.
fn try_size<T: Test>(
    alloc: Global,
    test: &T,
    n: u32,
    size: u32,
    limit: u64,
    skips: bool,
) -> Result<LeastSet, Memory>
    ensures { IfOk result (AnswersSize (T.passes test.now) n limit skips size) }
{
    if count_sets(alloc, n, size)? > u128::from(limit) {
        if skips {
            return Ok(LeastSet::Nothing);
        }
        return Ok(LeastSet::TooMany { size });
    }
    match first_set(alloc, test, n, size)? {
        Some(places) => Ok(LeastSet::Found { size, places }),
        None => Ok(LeastSet::Nothing),
    }
}

/// The first set of the places below n that passes the test, of the least size from a first to a last one. A size of
/// which there are more sets than the limit is skipped, where that is said, and else ends the search.
pub fn least_set<T: Test>(
    alloc: Global,
    test: &T,
    n: u32,
    first: u32,
    last: u32,
    limit: u64,
    skips: bool,
) -> Result<LeastSet, Memory>
    requires { last < 4294967295 }
    ensures { IfOk result (AnswersLeast (T.passes test.now) n limit skips first last) }
{
    for size in first..last + 1 {
        match try_size(alloc, test, n, size, limit, skips)? {
            LeastSet::Nothing => {}
            ended => return Ok(ended),
        }
    }
    Ok(LeastSet::Nothing)
}
