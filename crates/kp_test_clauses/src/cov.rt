use kp_base::{LitSet, Memory, Row, Stop};
use kp_cover::{cov, covers, is_cover};
use kp_primes::{Primes, are_of_atoms};
use kp_test_problems::{ONE_OF_THREE, Sign, are_sets, primes, set, sets};
use std::alloc::Global;
use std::test::Fail;

fn tags(alloc: Global, stated: &[&[Sign]], clauses: &[&[Sign]]) -> Result<Row<LitSet>, Stop> {
    let primes = primes(alloc, stated, &[], 3)?;
    let clauses = sets(alloc, clauses)?;
    let tags = cov(alloc, &primes, &clauses);
    drop(clauses);
    drop(primes);
    Ok(tags?)
}

fn has_tags(alloc: Global, stated: &[&[Sign]], clauses: &[&[Sign]], expected: &[&[Sign]]) -> bool {
    match &tags(alloc, stated, clauses) {
        Ok(tags) => are_sets(tags.slice(), expected),
        Err(_) => false,
    }
}

const FIRST_TWO: &[Sign] = &[(0, true), (1, true)];

const LAST_TWO: &[Sign] = &[(1, true), (2, true)];

// The first clause goes slowest, and a tag that comes again is left out.
#[test]
fn takes_one_literal_of_each(rt: HostRuntime) -> Result<(), Fail> {
    let alloc = rt.alloc();
    assert!(rt; has_tags(alloc, &[], &[], &[&[]]));
    assert!(rt;
        has_tags(
            alloc,
            &[],
            &[FIRST_TWO, LAST_TWO],
            &[FIRST_TWO, &[(0, true), (2, true)], &[(1, true)], LAST_TWO]
        )
    );
    assert!(rt;
        has_tags(
            alloc,
            &[],
            &[FIRST_TWO, FIRST_TWO],
            &[&[(0, true)], FIRST_TWO, &[(1, true)]]
        )
    );
    Ok(())
}

// Just one of three cells is full, so no two are full.
#[test]
fn leaves_out_the_inconsistent(rt: HostRuntime) -> Result<(), Fail> {
    let alloc = rt.alloc();
    assert!(rt;
        has_tags(
            alloc,
            &ONE_OF_THREE,
            &[FIRST_TWO, LAST_TWO],
            &[&[(1, true)]]
        )
    );
    assert!(rt; has_tags(alloc, &ONE_OF_THREE, &[&[(0, true)], &[(1, true)]], &[]));
    Ok(())
}

const CELLS: [&[Sign]; 3] = [
    &[(0, true), (1, true), (2, true)],
    &[(0, true), (0, false)],
    &[(1, true), (1, false)],
];

fn judged(
    alloc: Global,
    primes: &Primes,
    clauses: &Row<LitSet>,
    places: &[u32],
) -> Result<bool, Memory> {
    if !are_of_atoms(clauses.slice(), primes.atoms()) {
        return Err(Memory);
    }
    is_cover(alloc, primes, clauses.slice(), places)
}

fn covers_at(alloc: Global, places: &[u32]) -> Result<bool, Stop> {
    let primes = primes(alloc, &ONE_OF_THREE, &[], 3)?;
    let clauses = sets(alloc, &CELLS)?;
    let judged = judged(alloc, &primes, &clauses, places);
    drop(clauses);
    drop(primes);
    Ok(judged?)
}

// Which cell is full tells all; that the first isn't leaves two.
#[test]
fn tells_which_clauses_cover(rt: HostRuntime) -> Result<(), Fail> {
    let alloc = rt.alloc();
    assert!(rt; matches!(covers_at(alloc, &[0]), Ok(true)));
    assert!(rt; matches!(covers_at(alloc, &[1, 2]), Ok(true)));
    assert!(rt; matches!(covers_at(alloc, &[1]), Ok(false)));
    Ok(())
}

fn one_meets(alloc: Global, closure: &[Sign], clause: &[Sign]) -> Result<bool, Memory> {
    let mut closures = Row::new(alloc);
    closures.push(set(alloc, closure)?)?;
    let mut clauses = Row::new(alloc);
    clauses.push(set(alloc, clause)?)?;
    Ok(covers(&closures, &clauses))
}

#[test]
fn asks_for_a_literal_of_each(rt: HostRuntime) -> Result<(), Fail> {
    let alloc = rt.alloc();
    assert!(rt; matches!(one_meets(alloc, &[(1, true)], FIRST_TWO), Ok(true)));
    assert!(rt; matches!(one_meets(alloc, &[(2, true)], FIRST_TWO), Ok(false)));
    Ok(())
}
