ghost use Rattle.std.specs.Prelude.{◌≡◌, ◌++◌, IfOk, OnOk, map};
ghost use Rattle.kp_tags.specs.MergeTables.{number_in, numbered};

use crate::tags::Tags;
use kp_base::{LitSet, Memory, Merge, Row};
use kp_tags_files::FileMerge;
use std::alloc::Global;

// Puts the numbers of some tags behind others.
fn push_numbers(tags: &Tags, sets: &[LitSet], numbers: &mut Row<u32>) -> Result<(), Memory>
    ensures { OnOk result (numbers.new ≡ numbers.old ++ map (number_in tags.now) sets.now) }
{
    for tag in sets {
        numbers.push(tags.number(tag)?)?;
    }
    Ok(())
}

// The numbers of some tags.
fn numbers(alloc: Global, tags: &Tags, sets: &[LitSet]) -> Result<Row<u32>, Memory>
    ensures { IfOk result (λ ns. ns ≡ map (number_in tags.now) sets.now) }
{
    let mut numbers = Row::new(alloc);
    push_numbers(tags, sets, &mut numbers)?;
    Ok(numbers)
}

// A merge with its tags by number.
fn numbered(alloc: Global, tags: &Tags, merge: &FileMerge) -> Result<Merge, Memory>
    ensures { IfOk result (λ m. m ≡ numbered tags.now merge.now) }
{
    Ok(Merge {
        target: merge.target,
        tags: numbers(alloc, tags, merge.tags.slice())?,
    })
}

// Puts merges with their tags by number behind others.
fn push_numbered(
    alloc: Global,
    tags: &Tags,
    merges: &[FileMerge],
    row: &mut Row<Merge>,
) -> Result<(), Memory>
    ensures { OnOk result (row.new ≡ row.old ++ map (numbered tags.now) merges.now) }
{
    for merge in merges {
        row.push(numbered(alloc, tags, merge)?)?;
    }
    Ok(())
}

/// The merges with their tags by number.
pub fn all_numbered(alloc: Global, tags: &Tags, merges: &[FileMerge]) -> Result<Row<Merge>, Memory>
    ensures { IfOk result (λ ms. ms ≡ map (numbered tags.now) merges.now) }
{
    let mut row = Row::new(alloc);
    push_numbered(alloc, tags, merges, &mut row)?;
    Ok(row)
}
