ghost use Rattle.std.specs.Prelude.{◌≡◌, map, IfOk, OnOk};
ghost use Rattle.kp_law_texts.specs.Pieces.{Puts, each, spaced};
ghost use Rattle.kp_tags_files.specs.MergesFiles.{IsMergesOf};
ghost use Rattle.kp_tags_files.specs.Printed.{tag_put, tag_of, with_tags, merge_line, merges_of, merges_text, CanBeWritten};

use kp_base::{Ground, GroundName, Lit, Memory, Merge, Row, TagRow, TagTable};
use kp_plans_spelling::{put, put_joined, put_literal};
use std::alloc::Global;

fn put_tag(out: &mut Vec<u8>, atoms: &[GroundName], lits: &[Lit]) -> Result<(), Memory>
    ensures { OnOk result (Puts out.old.items out.new.items (tag_put atoms.now lits.now)) }
{
    put(out, b"(")?;
    put_joined(out, atoms, lits)?;
    put(out, b")")?;
    Ok(())
}

// The tag of a number; `()` where there is none.
fn put_numbered(
    out: &mut Vec<u8>,
    atoms: &[GroundName],
    rows: &[TagRow],
    number: u32,
) -> Result<(), Memory>
    ensures { OnOk result (Puts out.old.items out.new.items (tag_put atoms.now (tag_of rows.now number))) }
{
    match rows.get(number as usize) {
        Some(row) => put_tag(out, atoms, row.lits.slice()),
        None => put(out, b"()"),
    }
}

// The tags of some numbers, a space before each.
fn put_tags(
    out: &mut Vec<u8>,
    atoms: &[GroundName],
    rows: &[TagRow],
    numbers: &[u32],
) -> Result<(), Memory>
    ensures { OnOk result (Puts out.old.items out.new.items (each (spaced (tag_put atoms.now)) (map (tag_of rows.now) numbers.now))) }
{
    for number in numbers {
        put(out, b" ")?;
        put_numbered(out, atoms, rows, *number)?;
    }
    Ok(())
}

// A merge on a line of its own.
fn put_merge(
    out: &mut Vec<u8>,
    atoms: &[GroundName],
    rows: &[TagRow],
    merge: &Merge,
) -> Result<(), Memory>
    ensures { OnOk result (Puts out.old.items out.new.items (merge_line atoms.now (with_tags rows.now merge.now))) }
{
    put(out, b"(merge ")?;
    put_literal(out, atoms, merge.target)?;
    put_tags(out, atoms, rows, merge.tags.slice())?;
    put(out, b")\n")?;
    Ok(())
}

// Merges, one a line.
fn put_merges(
    out: &mut Vec<u8>,
    atoms: &[GroundName],
    rows: &[TagRow],
    merges: &[Merge],
) -> Result<(), Memory>
    ensures { OnOk result (Puts out.old.items out.new.items (each (merge_line atoms.now) (map (with_tags rows.now) merges.now))) }
{
    for merge in merges {
        put_merge(out, atoms, rows, merge)?;
    }
    Ok(())
}

/// The merges of a table as a file has them: `(merge LIT TAG TAG)` for each, one a line.
pub fn merges_text(alloc: Global, ground: &Ground, table: &TagTable) -> Result<Row<u8>, Memory>
    ensures value { IfOk result (λ text. text ≡ merges_text ground.now.atoms (merges_of table.now)) }
    // What is written of merges on the atoms reads as these merges.
    ensures reads { IfOk result (λ text. CanBeWritten ground.now.atoms (merges_of table.now) → IsMergesOf ground.now.atoms text (merges_of table.now)) }
{
    let mut out = Vec::new(alloc);
    put_merges(
        &mut out,
        ground.atoms.slice(),
        table.tags.slice(),
        table.merges.slice(),
    )?;
    Ok(Row::from_vec(out))
}
