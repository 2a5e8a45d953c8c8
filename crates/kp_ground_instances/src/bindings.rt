ghost use Rattle.std.specs.Prelude.{◌≡◌, ◌<◌, Some, length, slice_get, IfOk, OnOk};
ghost use Rattle.kp_names_semantics.specs.Lifted.{bindings};

use crate::counting::binding_number;
use kp_base::{Memory, Row};
use kp_names_semantics::Range;
use std::alloc::Global;

/// How many lists of objects there are for these ranges. More than a `usize` counts are want of memory.
pub fn binding_total(ranges: &[Range]) -> Result<usize, Memory>
    ensures { IfOk result (λ n. n ≡ length (bindings ranges.now)) }
{
    match usize::try_from(binding_number(ranges)) {
        Ok(total) => Ok(total),
        Err(_) => Err(Memory),
    }
}

/// Puts the list of this number in place of what is there: an object from each range, the first range slowest.
pub fn fill_binding(objects: &mut Vec<u32>, ranges: &[Range], number: usize) -> Result<(), Memory>
    requires { number < length (bindings ranges.now) }
    ensures { OnOk result (slice_get (bindings ranges.now) number ≡ Some objects.new.items) }
{
    // The number's digits, the last first; the base of each is how many objects its range has.
    objects.clear();
    let mut rest = number;
    let mut left = ranges.len();
    while left > 0 {
        left -= 1;
        let range = &ranges[left].objects;
        objects.push(*range.at(rest % range.len()))?;
        rest /= range.len();
    }
    objects.reverse();
    Ok(())
}

// The list of this number.
fn binding_at(alloc: Global, ranges: &[Range], number: usize) -> Result<Row<u32>, Memory>
    requires { number < length (bindings ranges.now) }
    ensures { IfOk result (λ row. slice_get (bindings ranges.now) number ≡ Some row) }
{
    let mut objects = Vec::with_capacity(alloc, ranges.len())?;
    fill_binding(&mut objects, ranges, number)?;
    Ok(Row::from_vec(objects))
}

/// All the lists, in order.
pub fn all_bindings(alloc: Global, ranges: &[Range]) -> Result<Row<Row<u32>>, Memory>
    ensures { IfOk result (λ rows. rows ≡ bindings ranges.now) }
{
    let total = binding_total(ranges)?;
    let mut rows = Row::new(alloc);
    for number in 0..total {
        rows.push(binding_at(alloc, ranges, number)?)?;
    }
    Ok(rows)
}
