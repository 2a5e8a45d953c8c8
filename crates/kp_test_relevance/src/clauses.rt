use crate::given::relevance_of;
use kp_base::{Ground, LitSet, Memory, Row, Stop};
use kp_primes::Primes;
use kp_relevance::Relevance;
use kp_test_problems::{LEFT, ONE_OF_THREE, Sign, are_sets, idle, literal, primes, single};
use std::alloc::Global;
use std::test::Fail;

fn found(
    alloc: Global,
    relevance: &Relevance,
    primes: &Primes,
    target: Sign,
) -> Result<Row<LitSet>, Memory> {
    let target = literal(target);
    if target.atom.0 >= primes.atoms() {
        return Err(Memory);
    }
    relevance.clauses_for(alloc, primes, target)
}

// The clauses for a target, where this is stated of the initial states.
fn clauses_for(
    alloc: Global,
    ground: Result<Ground, Memory>,
    stated: &[&[Sign]],
    atoms: u32,
    target: Sign,
) -> Result<Row<LitSet>, Stop> {
    let relevance = relevance_of(alloc, ground)?;
    let primes = primes(alloc, stated, &[], atoms)?;
    let clauses = found(alloc, &relevance, &primes, target);
    drop(primes);
    drop(relevance);
    Ok(clauses?)
}

fn are_found(clauses: &Result<Row<LitSet>, Stop>, expected: &[&[Sign]]) -> bool {
    match clauses {
        Ok(clauses) => are_sets(clauses.slice(), expected),
        Err(_) => false,
    }
}

fn has_four_for_the_first_cell(alloc: Global) -> bool {
    are_found(
        &clauses_for(
            alloc,
            single(alloc, 3, &LEFT, &[]),
            &ONE_OF_THREE,
            3,
            (0, true),
        ),
        &[
            &[(0, true), (1, true), (2, true)],
            &[(1, true), (1, false)],
            &[(1, false), (2, false)],
            &[(2, true), (2, false)],
        ],
    )
}

fn has_one_for_the_last_cell(alloc: Global) -> bool {
    are_found(
        &clauses_for(
            alloc,
            single(alloc, 3, &LEFT, &[]),
            &ONE_OF_THREE,
            3,
            (2, true),
        ),
        &[&[(2, true), (2, false)]],
    )
}

// One of three cells is full. What matters for the first are the cell that is full, and of the others which is.
#[test]
fn has_those_of_the_cells(rt: HostRuntime) -> Result<(), Fail> {
    assert!(rt; has_four_for_the_first_cell(rt.alloc()));
    assert!(rt; has_one_for_the_last_cell(rt.alloc()));
    Ok(())
}

// The second atom comes where the first holds, and where it doesn't; it is false at the start.
fn has_the_unknown_one(alloc: Global) -> bool {
    are_found(
        &clauses_for(
            alloc,
            single(
                alloc,
                2,
                &[(&[(0, true)], (1, true)), (&[(0, false)], (1, true))],
                &[],
            ),
            &[&[(1, false)]],
            2,
            (1, true),
        ),
        &[&[(0, true), (0, false)]],
    )
}

// The third comes in each of the four cases of the first two.
fn has_the_two_unknown_ones(alloc: Global) -> bool {
    are_found(
        &clauses_for(
            alloc,
            single(
                alloc,
                3,
                &[
                    (&[(0, true), (1, true)], (2, true)),
                    (&[(0, true), (1, false)], (2, true)),
                    (&[(0, false), (1, true)], (2, true)),
                    (&[(0, false), (1, false)], (2, true)),
                ],
                &[],
            ),
            &[&[(2, false)]],
            3,
            (2, true),
        ),
        &[&[(0, true), (0, false)], &[(1, true), (1, false)]],
    )
}

#[test]
fn has_those_of_unknown_atoms(rt: HostRuntime) -> Result<(), Fail> {
    assert!(rt; has_the_unknown_one(rt.alloc()));
    assert!(rt; has_the_two_unknown_ones(rt.alloc()));
    Ok(())
}

// Three prime implicates, and no action: none of them matters for the first atom.
fn has_none_without_actions(alloc: Global) -> bool {
    are_found(
        &clauses_for(
            alloc,
            idle(alloc, 3, &[]),
            &[&[(0, true), (1, true)], &[(0, false), (2, true)]],
            3,
            (0, true),
        ),
        &[],
    )
}

#[test]
fn has_none_where_nothing_matters(rt: HostRuntime) -> Result<(), Fail> {
    assert!(rt; has_none_without_actions(rt.alloc()));
    Ok(())
}
