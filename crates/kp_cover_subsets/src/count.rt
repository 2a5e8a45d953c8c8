//! How many sets of one size there are.
ghost use Rattle.std.specs.Prelude.{◌≡◌, IfOk};
ghost use Rattle.kp_cover_subsets.specs.Subsets.{choose, capped};
ghost use Rattle.kp_cover_subsets.specs.Counted.{IsNext};

use kp_base::Memory;
use std::alloc::Global;

// From the row of numbers for n elements to the row for one more.
fn next_row(row: &mut [u128])
    ensures { IsNext row.old row.new }
{
    let mut before: u128 = 0;
    for x in row {
        let here = *x;
        *x = here.saturating_add(before);
        before = here;
    }
}

/// How many sets of k elements there are of n, or 2^128 - 1 if that is less.
pub fn count_sets(alloc: Global, n: u32, k: u32) -> Result<u128, Memory>
    ensures { IfOk result (λ count. count ≡ capped (choose n k)) }
{
    let mut row = vec![in alloc; 0u128; k as usize + 1]?;
    row[0] = 1;
    for _ in 0..n {
        next_row(&mut row);
    }
    Ok(row[k as usize])
}
