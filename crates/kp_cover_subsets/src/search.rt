//! The first set of one size that passes a test.
ghost use Rattle.std.specs.Prelude.{◌≡◌, ◌≤◌, ◌-◌, IfOk, option_map};
ghost use Rattle.std.specs.List.{range_with_len};
ghost use Rattle.kp_cover_subsets.specs.Subsets.{subsets, place_sets, first_that};
ghost use Rattle.kp_cover_subsets.specs.Searched.{Searched};

use kp_base::{Memory, Row};
use std::alloc::Global;

/// A test on sets of places. Want of memory may end it.
pub trait Test {
    ghost use Rattle.std.specs.Prelude.{List, ℕ, Bool};

    /// Whether a set of places passes.
    ghost passes: { Self → List ℕ → Bool };

    /// Whether the set passes.
    fn test(&self, alloc: Global, places: &[u32]) -> Result<bool, Memory>
        ensures { IfOk result (λ b. b ≡ Self.passes self.now places.now) };
}

// Looks for the first set of k places from a place on that passes, together with those that are chosen. Leaves the
// chosen places with it; without one, as they were.
fn search<T: Test>(
    alloc: Global,
    test: &T,
    n: u32,
    k: u32,
    from: u32,
    chosen: &mut Vec<u32>,
) -> Result<bool, Memory>
    requires { from ≤ n }
    ensures { IfOk result (λ found. Searched (T.passes test.now) (subsets k (range_with_len from (n - from))) chosen.old.items found chosen.new.items) }
{
    if k == 0 {
        return test.test(alloc, chosen);
    }
    for i in from..n {
        chosen.push(i)?;
        if search(alloc, test, n, k - 1, i + 1, chosen)? {
            return Ok(true);
        }
        chosen.pop();
    }
    Ok(false)
}

/// The first set of k of the places below n, in order, that passes the test: at the first place in which two sets
/// differ, the lesser comes first.
pub fn first_set<T: Test>(
    alloc: Global,
    test: &T,
    n: u32,
    k: u32,
) -> Result<Option<Vec<u32>>, Memory>
    ensures { IfOk result (λ found. option_map (λ v. v.items) found ≡ first_that (T.passes test.now) (place_sets n k)) }
{
    let mut chosen = Vec::new(alloc);
    if search(alloc, test, n, k, 0, &mut chosen)? {
        Ok(Some(chosen))
    } else {
        Ok(None)
    }
}
