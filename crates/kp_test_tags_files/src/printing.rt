//! Merges of a table as they are written.

use crate::given::three_atoms;
use kp_base::{LitSet, Memory, Merge, Row, TagRow, TagTable};
use kp_tags_files::merges_text;
use kp_test_problems::{Sign, literal, set};
use std::alloc::Global;

// Tags without closures: what is known under a tag isn't written.
fn rows(alloc: Global, tags: &[&[Sign]]) -> Result<Row<TagRow>, Memory> {
    let mut rows = Row::new(alloc);
    for tag in tags {
        let lits = set(alloc, tag)?;
        rows.push(TagRow {
            lits,
            closure: LitSet::new(alloc),
        })?;
    }
    Ok(rows)
}

// One merge of these tags.
fn one_merge(alloc: Global, target: Sign, numbers: &[u32]) -> Result<Row<Merge>, Memory> {
    let mut tags = Row::new(alloc);
    for number in numbers {
        tags.push(*number)?;
    }
    let mut merges = Row::new(alloc);
    merges.push(Merge {
        target: literal(target),
        tags,
    })?;
    Ok(merges)
}

// The table of one merge and these tags.
fn table(
    alloc: Global,
    tags: &[&[Sign]],
    target: Sign,
    numbers: &[u32],
) -> Result<TagTable, Memory> {
    let tags = rows(alloc, tags)?;
    let merges = one_merge(alloc, target, numbers)?;
    Ok(TagTable { tags, merges })
}

// The text of one merge, on three atoms.
fn text(alloc: Global, tags: &[&[Sign]], target: Sign, numbers: &[u32]) -> Result<Row<u8>, Memory> {
    let table = table(alloc, tags, target, numbers)?;
    let ground = three_atoms(alloc)?;
    merges_text(alloc, &ground, &table)
}

// Whether one merge is written so.
fn prints(alloc: Global, tags: &[&[Sign]], target: Sign, numbers: &[u32], wanted: &str) -> bool {
    match text(alloc, tags, target, numbers) {
        Ok(text) => text.slice() == wanted.as_bytes(),
        Err(_) => false,
    }
}

#[test]
fn one_line_for_a_merge(rt: HostRuntime) {
    let tags: [&[Sign]; 4] = [&[], &[(0, true)], &[(1, true)], &[(2, true), (1, false)]];
    for (target, numbers, wanted) in [
        (
            (0, true),
            &[1u32, 2, 3] as &[u32],
            "(merge (x1) ((x1)) ((x2)) ((not (x2)) (at b)))\n",
        ),
        ((2, false), &[0u32], "(merge (not (at b)) ())\n"),
        ((1, true), &[], "(merge (x2))\n"),
    ] {
        assert!(rt;
            prints(rt.alloc(), &tags, target, numbers, wanted),
            "{wanted}"
        );
    }
}
