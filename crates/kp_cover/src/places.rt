//! Clauses by their places.
ghost use Rattle.std.specs.Prelude.{◌≡◌, [], get_or, IfOk};
ghost use Rattle.kp_cover.specs.Covering.{pick};

use kp_base::{LitSet, Memory, Row};
use std::alloc::Global;

// The clause at a place; the empty one where there is none.
fn copy_at(alloc: Global, clauses: &[LitSet], place: u32) -> Result<LitSet, Memory>
    ensures { IfOk result (λ c. c ≡ get_or clauses.now place []) }
{
    match clauses.get(place as usize) {
        Some(c) => c.copy(alloc),
        None => Ok(LitSet::new(alloc)),
    }
}

/// The clauses at some places.
pub fn picked(alloc: Global, clauses: &[LitSet], places: &[u32]) -> Result<Row<LitSet>, Memory>
    ensures { IfOk result (λ row. row ≡ pick clauses.now places.now) }
{
    let mut row = Row::new(alloc);
    for place in places {
        row.push(copy_at(alloc, clauses, *place)?)?;
    }
    Ok(row)
}
