ghost use Rattle.std.specs.Prelude.{◌≡◌, ◌++◌, max, IfOk, OnOk};
ghost use Rattle.kp_run_messages.specs.Widths.{set_lines, tag_lines, width_line, row_lines, rows_lines, width_text, over_text};
ghost use Rattle.kp_width.specs.Rows.{greatest_width};

use crate::lines::put_target;
use kp_base::{GroundName, Lit, LitSet, Memory, Row};
use kp_plans_spelling::{put, put_count, put_literal, put_literals};
use kp_width::WidthRow;
use std::alloc::Global;

// Adds the lines of sets of literals under a title.
fn put_sets(
    out: &mut Vec<u8>,
    title: &[u8],
    atoms: &[GroundName],
    sets: &[LitSet],
) -> Result<(), Memory>
    ensures { OnOk result (out.new.items ≡ out.old.items ++ set_lines title.now atoms.now sets.now) }
{
    for set in sets {
        put(out, title)?;
        put_literals(out, atoms, set.slice())?;
        put(out, b"\n")?;
    }
    Ok(())
}

// Adds the lines of the tags of a row, unless it has no clauses.
fn put_tags(
    out: &mut Vec<u8>,
    atoms: &[GroundName],
    clauses: &[LitSet],
    tags: &[LitSet],
) -> Result<(), Memory>
    ensures { OnOk result (out.new.items ≡ out.old.items ++ tag_lines atoms.now clauses.now tags.now) }
{
    if clauses.is_empty() {
        return Ok(());
    }
    put_sets(out, b"tag", atoms, tags)
}

// Adds the line of a target and of its width.
fn put_width(
    out: &mut Vec<u8>,
    atoms: &[GroundName],
    target: Lit,
    width: usize,
) -> Result<(), Memory>
    ensures { OnOk result (out.new.items ≡ out.old.items ++ width_line atoms.now target width) }
{
    put(out, b"target ")?;
    put_literal(out, atoms, target)?;
    put_count(out, b" width ", width as u64)
}

// Adds the lines of a row.
fn put_row(out: &mut Vec<u8>, atoms: &[GroundName], row: &WidthRow) -> Result<(), Memory>
    ensures { OnOk result (out.new.items ≡ out.old.items ++ row_lines atoms.now row.now) }
{
    let clauses = row.clauses.slice();
    put_width(out, atoms, row.target, clauses.len())?;
    put_sets(out, b"clause", atoms, clauses)?;
    put_tags(out, atoms, clauses, row.tags.slice())
}

// Adds the lines of rows.
fn put_rows(out: &mut Vec<u8>, atoms: &[GroundName], rows: &[WidthRow]) -> Result<(), Memory>
    ensures { OnOk result (out.new.items ≡ out.old.items ++ rows_lines atoms.now rows.now) }
{
    for row in rows {
        put_row(out, atoms, row)?;
    }
    Ok(())
}

// The greatest width of a row.
fn greatest(rows: &[WidthRow]) -> usize
    ensures { result ≡ greatest_width rows.now }
{
    let mut most = 0;
    for row in rows {
        most = most.max(row.clauses.slice().len());
    }
    most
}

/// The width of a problem, and how each target is covered.
pub fn width_report(
    alloc: Global,
    atoms: &[GroundName],
    rows: &[WidthRow],
) -> Result<Row<u8>, Memory>
    ensures { IfOk result (λ text. text ≡ width_text atoms.now rows.now) }
{
    let mut out = Vec::new(alloc);
    put_count(&mut out, b"width ", greatest(rows) as u64)?;
    put_rows(&mut out, atoms, rows)?;
    Ok(Row::from_vec(out))
}

/// The lines of a target that no clauses up to the bound cover.
pub fn over(alloc: Global, atoms: &[GroundName], bound: u32, target: Lit) -> Result<Row<u8>, Memory>
    ensures { IfOk result (λ text. text ≡ over_text atoms.now bound target) }
{
    let mut out = Vec::new(alloc);
    put_count(&mut out, b"over ", u64::from(bound))?;
    put_target(&mut out, atoms, target)?;
    Ok(Row::from_vec(out))
}
