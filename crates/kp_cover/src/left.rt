//! Tags by their places, and which of them aren't false.
ghost use Rattle.std.specs.Prelude.{◌≡◌, ◌++◌, ◌∷◌, [], cond, slice_get, IfOk, OnOk};
ghost use Rattle.std.specs.List.{range_with_len};
ghost use Rattle.kp_cover.specs.Inside.{is_left_at, still_left};

use kp_base::{LitSet, Memory, Row};
use std::alloc::Global;

// Whether the tag at a place isn't false.
fn is_left_at(tags: &[LitSet], known: &LitSet, place: usize) -> bool
    ensures { result ≡ is_left_at known.now (slice_get tags.now place) }
{
    match tags.get(place) {
        Some(t) => !t.opposed(known),
        None => false,
    }
}

// Puts a place behind others, unless the tag there is false.
fn keep(tags: &[LitSet], known: &LitSet, place: usize, row: &mut Row<usize>) -> Result<(), Memory>
    ensures { OnOk result (row.new ≡ row.old ++ cond (is_left_at known.now (slice_get tags.now place)) (place ∷ []) []) }
{
    if is_left_at(tags, known, place) {
        row.push(place)?;
    }
    Ok(())
}

/// Those of some places where the tags aren't false.
pub(crate) fn still_left(
    alloc: Global,
    tags: &[LitSet],
    known: &LitSet,
    places: &[usize],
) -> Result<Row<usize>, Memory>
    ensures { IfOk result (λ row. row ≡ still_left known.now tags.now places.now) }
{
    let mut row = Row::new(alloc);
    for place in places {
        keep(tags, known, *place, &mut row)?;
    }
    Ok(row)
}

/// The places from 0 on.
pub(crate) fn first_places(alloc: Global, number: usize) -> Result<Row<usize>, Memory>
    ensures { IfOk result (λ row. row ≡ range_with_len 0 number) }
{
    let mut row = Row::new(alloc);
    for place in 0..number {
        row.push(place)?;
    }
    Ok(row)
}
