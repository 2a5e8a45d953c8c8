//! What the tests are given: ground problems and tables.

use kp_base::{Ground, Memory, Merge, Row, TagRow, TagTable};
use kp_test_problems::{LEFT, Sign, add_named, literal, named, set};
use std::alloc::Global;

/// Three cells in a row, and a step to the left; the first is to be full.
pub(crate) fn cells(alloc: Global) -> Result<Ground, Memory> {
    let mut ground = named(alloc, &[b"x1", b"x2", b"x3"], &[(0, true)])?;
    add_named(alloc, &mut ground, b"left", &[], &LEFT)?;
    Ok(ground)
}

/// Two atoms; where p holds, the action adds q and deletes p.
pub(crate) fn exchange(alloc: Global) -> Result<Ground, Memory> {
    let mut ground = named(alloc, &[b"p", b"q"], &[(1, true)])?;
    add_named(
        alloc,
        &mut ground,
        b"a",
        &[(0, true)],
        &[(&[], (1, true)), (&[], (0, false))],
    )?;
    Ok(ground)
}

fn push_tag(
    alloc: Global,
    row: &mut Row<TagRow>,
    lits: &[Sign],
    closure: &[Sign],
) -> Result<(), Memory> {
    let lits = set(alloc, lits)?;
    let closure = set(alloc, closure)?;
    row.push(TagRow { lits, closure })
}

/// The empty tag alone, under which p and not q are known.
pub(crate) fn one_tag(alloc: Global) -> Result<TagTable, Memory> {
    let mut tags = Row::new(alloc);
    push_tag(alloc, &mut tags, &[], &[(0, true), (1, false)])?;
    Ok(TagTable {
        tags,
        merges: Row::new(alloc),
    })
}

fn merges(alloc: Global) -> Result<Row<Merge>, Memory> {
    let mut tags = Row::new(alloc);
    for tag in [1u32, 2, 3] {
        tags.push(tag)?;
    }
    let mut row = Row::new(alloc);
    row.push(Merge {
        target: literal((0, true)),
        tags,
    })?;
    Ok(row)
}

/// The empty tag, a tag for each of the three cells, and a merge that has these.
pub(crate) fn tag_for_each(alloc: Global) -> Result<TagTable, Memory> {
    let mut tags = Row::new(alloc);
    push_tag(alloc, &mut tags, &[], &[])?;
    push_tag(
        alloc,
        &mut tags,
        &[(0, true)],
        &[(0, true), (1, false), (2, false)],
    )?;
    push_tag(
        alloc,
        &mut tags,
        &[(1, true)],
        &[(0, false), (1, true), (2, false)],
    )?;
    push_tag(
        alloc,
        &mut tags,
        &[(2, true)],
        &[(0, false), (1, false), (2, true)],
    )?;
    let merges = merges(alloc)?;
    Ok(TagTable { tags, merges })
}
