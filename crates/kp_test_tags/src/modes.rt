use crate::given::{at_most, made_of_cells, made_of_ways};
use crate::table::{has_merge, has_row, is_table_of_three};
use kp_base::{Limits, Refused, Stop, TagTable};
use kp_tags::Mode;
use kp_test_problems::{Sign, is_literal};
use std::alloc::Global;
use std::test::Fail;

fn is_refused_tags(made: &Result<TagTable, Stop>) -> bool {
    matches!(made, Err(Stop::Refused(Refused::TagsOver)))
}

fn is_refused_sets(made: &Result<TagTable, Stop>, of: Sign, sets_of: u32) -> bool {
    match made {
        Err(Stop::Refused(Refused::SetsOver { target, size })) => {
            is_literal(*target, of) && *size == sets_of
        }
        _ => false,
    }
}

// ---- the empty tag alone

fn is_empty_tag(made: &Result<TagTable, Stop>, closure: &[Sign]) -> bool {
    match made {
        Ok(table) => {
            table.tags.len() == 1 && table.merges.len() == 0 && has_row(table, 0, &[], closure)
        }
        Err(_) => false,
    }
}

fn knows_no_cell(alloc: Global) -> bool {
    is_empty_tag(&made_of_cells(alloc, Mode::K0, &at_most(1, 0)), &[])
}

fn knows_that_g_is_false(alloc: Global) -> bool {
    is_empty_tag(
        &made_of_ways(alloc, Mode::K0, &at_most(1, 0)),
        &[(2, false)],
    )
}

#[test]
fn k0_has_the_empty_tag_alone(rt: HostRuntime) -> Result<(), Fail> {
    let alloc = rt.alloc();
    assert!(rt; knows_no_cell(alloc));
    assert!(rt; knows_that_g_is_false(alloc));
    Ok(())
}

// ---- one clause

fn is_table_of_cells(made: &Result<TagTable, Stop>) -> bool {
    match made {
        Ok(table) => is_table_of_three(table),
        Err(_) => false,
    }
}

fn takes_a_tag_for_each_cell(alloc: Global, limits: &Limits) -> bool {
    is_table_of_cells(&made_of_cells(alloc, Mode::K1, limits))
}

fn has_no_room_for_the_third(alloc: Global, limits: &Limits) -> bool {
    is_refused_tags(&made_of_cells(alloc, Mode::K1, limits))
}

#[test]
fn k1_counts_the_empty_tag(rt: HostRuntime) -> Result<(), Fail> {
    let alloc = rt.alloc();
    assert!(rt; takes_a_tag_for_each_cell(alloc, &at_most(4, 1_000_000)));
    assert!(rt; has_no_room_for_the_third(alloc, &at_most(3, 1_000_000)));
    Ok(())
}

// ---- two clauses, and one set of them

const NOT_G: Sign = (2, false);

fn has_ways(table: &TagTable) -> bool {
    has_way(table, 1, (0, true), (1, true))
        && has_way(table, 2, (0, true), (1, false))
        && has_way(table, 3, (0, false), (1, true))
        && has_way(table, 4, (0, false), (1, false))
}

fn has_way(table: &TagTable, number: usize, p: Sign, r: Sign) -> bool {
    has_row(table, number, &[p, r], &[p, r, NOT_G])
}

fn is_table_of_ways(table: &TagTable) -> bool {
    table.tags.len() == 5
        && table.merges.len() == 1
        && has_row(table, 0, &[], &[NOT_G])
        && has_ways(table)
        && has_merge(table, 0, (2, true), &[1, 2, 3, 4])
}

fn takes_each_way(alloc: Global, mode: Mode, limits: &Limits) -> bool {
    match &made_of_ways(alloc, mode, limits) {
        Ok(table) => is_table_of_ways(table),
        Err(_) => false,
    }
}

fn has_too_many_sets(alloc: Global, mode: Mode, limits: &Limits) -> bool {
    is_refused_sets(&made_of_ways(alloc, mode, limits), (2, true), 1)
}

fn has_no_room_for_a_way(alloc: Global, mode: Mode, limits: &Limits) -> bool {
    is_refused_tags(&made_of_ways(alloc, mode, limits))
}

#[test]
fn k2_counts_the_sets_of_a_size(rt: HostRuntime) -> Result<(), Fail> {
    let alloc = rt.alloc();
    assert!(rt; has_too_many_sets(alloc, Mode::K2, &at_most(5, 1)));
    assert!(rt; has_too_many_sets(alloc, Mode::K2, &at_most(1, 1)));
    assert!(rt; takes_each_way(alloc, Mode::K2, &at_most(5, 2)));
    Ok(())
}

#[test]
fn auto_passes_over_a_size(rt: HostRuntime) -> Result<(), Fail> {
    let alloc = rt.alloc();
    assert!(rt; takes_each_way(alloc, Mode::Auto, &at_most(5, 1)));
    assert!(rt; has_no_room_for_a_way(alloc, Mode::Auto, &at_most(4, 1)));
    Ok(())
}
