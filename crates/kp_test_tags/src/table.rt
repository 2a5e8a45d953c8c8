//! What a table has: tags by number with their closures, and merges by number.

use kp_base::{TagRow, TagTable};
use kp_test_problems::{Sign, are_literals, is_literal};

fn is_row(row: &TagRow, lits: &[Sign], closure: &[Sign]) -> bool {
    are_literals(row.lits.slice(), lits) && are_literals(row.closure.slice(), closure)
}

pub(crate) fn has_row(table: &TagTable, number: usize, lits: &[Sign], closure: &[Sign]) -> bool {
    match table.tags.slice().get(number) {
        Some(row) => is_row(row, lits, closure),
        None => false,
    }
}

/// Whether the merge of that number is of that target and has these tags.
pub(crate) fn has_merge(table: &TagTable, number: usize, target: Sign, tags: &[u32]) -> bool {
    match table.merges.slice().get(number) {
        Some(merge) => is_literal(merge.target, target) && merge.tags.slice() == tags,
        None => false,
    }
}

// The empty tag, and each cell with what follows from it.
pub(crate) fn has_cells(table: &TagTable) -> bool {
    has_row(table, 0, &[], &[])
        && has_row(table, 1, &[(0, true)], &[(0, true), (1, false), (2, false)])
        && has_row(table, 2, &[(1, true)], &[(0, false), (1, true), (2, false)])
        && has_row(table, 3, &[(2, true)], &[(0, false), (1, false), (2, true)])
}

/// Whether the table has a tag for each of three cells, and one merge of them for the first.
pub(crate) fn is_table_of_three(table: &TagTable) -> bool {
    table.tags.len() == 4
        && table.merges.len() == 1
        && has_cells(table)
        && has_merge(table, 0, (0, true), &[1, 2, 3])
}
