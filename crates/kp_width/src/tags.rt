//! How many different tags rows have.
ghost use Rattle.std.specs.Prelude.{◌≡◌, [], ◌∷◌, fold, length, IfOk, OnOk};
ghost use Rattle.kp_cover.specs.Grown.{added};
ghost use Rattle.kp_width.specs.Rows.{row_tags};

use crate::report::WidthRow;
use kp_base::{LitSet, Memory};
use kp_cover::Tags;
use std::alloc::Global;

// Adds tags, each where it is new.
fn insert_all(alloc: Global, tags: &mut Tags, more: &[LitSet]) -> Result<(), Memory>
    ensures { OnOk result (tags.new ≡ fold added tags.old more.now) }
{
    for tag in more {
        tags.insert(alloc, tag)?;
    }
    Ok(())
}

// The empty tag alone.
fn with_empty(alloc: Global) -> Result<Tags, Memory>
    ensures { IfOk result (λ tags. tags ≡ [] ∷ []) }
{
    let mut tags = Tags::new(alloc);
    let empty = LitSet::new(alloc);
    let inserted = tags.insert(alloc, &empty);
    drop(empty);
    inserted?;
    Ok(tags)
}

// The empty tag and those of rows.
fn of_rows(alloc: Global, rows: &[WidthRow]) -> Result<Tags, Memory>
    ensures { IfOk result (λ tags. tags ≡ row_tags rows.now) }
{
    let mut tags = with_empty(alloc)?;
    for row in rows {
        insert_all(alloc, &mut tags, row.tags.slice())?;
    }
    Ok(tags)
}

/// How many different tags the rows have, with the empty one.
pub fn count_tags(alloc: Global, rows: &[WidthRow]) -> Result<usize, Memory>
    ensures { IfOk result (λ n. n ≡ length (row_tags rows.now)) }
{
    let tags = of_rows(alloc, rows)?;
    Ok(tags.len())
}
