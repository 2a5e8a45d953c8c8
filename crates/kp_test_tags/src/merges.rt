use crate::given::accepted;
use crate::table::{has_cells, has_merge, has_row, is_table_of_three};
use kp_base::{Refused, Stop};
use kp_test_problems::{Sign, are_atoms};
use std::alloc::Global;
use std::test::Fail;

const FIRST: &[Sign] = &[(0, true)];

const SECOND: &[Sign] = &[(1, true)];

const THIRD: &[Sign] = &[(2, true)];

fn takes_three(alloc: Global) -> bool {
    match &accepted(alloc, &[&[FIRST, SECOND, THIRD]], 4) {
        Ok(table) => is_table_of_three(table),
        Err(_) => false,
    }
}

// The second merge has the tags of the first in another order, and one of them twice.
fn shares_tags(alloc: Global) -> bool {
    match &accepted(
        alloc,
        &[&[FIRST, SECOND, THIRD], &[THIRD, FIRST, THIRD, SECOND]],
        4,
    ) {
        Ok(table) => has_cells(table) && has_merge(table, 1, (0, true), &[3, 1, 3, 2]),
        Err(_) => false,
    }
}

fn takes_no_merges(alloc: Global) -> bool {
    match &accepted(alloc, &[], 1) {
        Ok(table) => table.merges.len() == 0 && has_row(table, 0, &[], &[]),
        Err(_) => false,
    }
}

#[test]
fn accepts_valid_merges(rt: HostRuntime) -> Result<(), Fail> {
    let alloc = rt.alloc();
    assert!(rt; takes_three(alloc));
    assert!(rt; shares_tags(alloc));
    assert!(rt; takes_no_merges(alloc));
    Ok(())
}

fn is_invalid(alloc: Global, merges: &[&[&[Sign]]], number: u32, atoms: &[u32]) -> bool {
    match &accepted(alloc, merges, 4) {
        Err(Stop::Refused(Refused::MergeInvalid { merge, state })) => {
            *merge == number && are_atoms(state.slice(), atoms)
        }
        _ => false,
    }
}

fn is_inconsistent(alloc: Global, merges: &[&[&[Sign]]], number: u32, place: u32) -> bool {
    match &accepted(alloc, merges, 4) {
        Err(Stop::Refused(Refused::TagInconsistent { merge, tag })) => {
            *merge == number && *tag == place
        }
        _ => false,
    }
}

const BOTH: &[Sign] = &[(0, true), (1, true)];

fn tells_invalid_merges(alloc: Global) -> bool {
    is_invalid(alloc, &[&[FIRST, SECOND]], 0, &[2]) && is_invalid(alloc, &[&[]], 0, &[2])
}

fn tells_inconsistent_tags(alloc: Global) -> bool {
    is_inconsistent(alloc, &[&[BOTH]], 0, 0) && is_inconsistent(alloc, &[&[FIRST, BOTH]], 0, 1)
}

// The second merge has a state outside, and the tag of the third is inconsistent.
fn tells_the_second_merge(alloc: Global) -> bool {
    is_invalid(
        alloc,
        &[&[FIRST, SECOND, THIRD], &[SECOND, THIRD], &[BOTH]],
        1,
        &[0],
    )
}

#[test]
fn tells_the_first_fault(rt: HostRuntime) -> Result<(), Fail> {
    let alloc = rt.alloc();
    assert!(rt; tells_invalid_merges(alloc));
    assert!(rt; tells_inconsistent_tags(alloc));
    assert!(rt; tells_the_second_merge(alloc));
    Ok(())
}

fn passes_the_limit(alloc: Global) -> bool {
    matches!(
        accepted(alloc, &[&[FIRST, SECOND, THIRD]], 3),
        Err(Stop::Refused(Refused::TagsOver))
    )
}

#[test]
fn counts_the_empty_tag(rt: HostRuntime) -> Result<(), Fail> {
    assert!(rt; passes_the_limit(rt.alloc()));
    Ok(())
}
