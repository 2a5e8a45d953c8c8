//! Rows of numbers, one for each fact.
ghost use Rattle.std.specs.Prelude.{◌≡◌, ◌<◌, [], ◌∷◌, ◌++◌, ℕ, length, set, IfOk, OnOk};
ghost use Rattle.kp_guide.specs.Waiting.{row};

use kp_base::{Memory, Row};
use std::alloc::Global;

/// As many empty rows.
pub(crate) fn empty_rows(alloc: Global, count: usize) -> Result<Vec<Row<usize>>, Memory>
    ensures long { IfOk result (λ rows. length rows.items ≡ count) }
    ensures empty { IfOk result (λ rows. (f : ℕ) → row rows.items f ≡ []) }
{
    let mut rows = Vec::new(alloc);
    for _ in 0..count {
        rows.push(Row::new(alloc))?;
    }
    Ok(rows)
}

/// Adds a number to the row of a fact.
pub(crate) fn put(rows: &mut [Row<usize>], fact: u32, number: usize) -> Result<(), Memory>
    requires { fact < length rows.old }
    ensures { OnOk result (rows.new ≡ set rows.old fact (row rows.old fact ++ number ∷ [])) }
{
    rows[fact as usize].push(number)?;
    Ok(())
}
