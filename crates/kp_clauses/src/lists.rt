//! Lists by number. Those that were not made yet are empty.

ghost use Rattle.std.specs.Prelude.{◌≡◌, ◌<◌, ℕ, length, OnOk};
ghost use Rattle.kp_clauses.specs.Listed.{row};

use kp_base::{Memory, Row};
use std::alloc::Global;

/// The list with this number.
pub fn list<T>(lists: &[Row<T>], number: usize) -> &[T]
    ensures { result.now ≡ row lists.now number }
{
    match lists.get(number) {
        Some(items) => items.slice(),
        None => &[],
    }
}

/// Makes as many lists as there must be for this number. At `Memory` some of them are made.
pub fn make_lists<T: Drop>(
    alloc: Global,
    lists: &mut Vec<Row<T>>,
    number: usize,
) -> Result<(), Memory>
    requires { number < 8589934592 }
    ensures same { (k : ℕ) → row lists.new.items k ≡ row lists.old.items k }
    ensures there { OnOk result (number < length lists.new.items) }
{
    for _ in lists.len()..number + 1 {
        lists.push(Row::new(alloc))?;
    }
    Ok(())
}
