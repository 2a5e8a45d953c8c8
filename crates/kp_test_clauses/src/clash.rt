use kp_base::{AtomId, Ground, Stop};
use kp_clash::{Pairs, exclusive};
use kp_primes::Primes;
use kp_test_problems::{LEFT, ONE_OF_THREE, Sign, primes, single};
use std::alloc::Global;
use std::test::Fail;

fn found_for(alloc: Global, ground: &Ground, primes: &Primes) -> Result<Pairs, Stop> {
    if ground.atoms.len() != 3 || primes.atoms() != 3 {
        return Err(Stop::Memory);
    }
    let pairs = exclusive(alloc, ground, primes)?;
    Ok(pairs)
}

// The pairs of three cells and the step to the left, where this is stated of them.
fn found(alloc: Global, clauses: &[&[Sign]]) -> Result<Pairs, Stop> {
    let ground = single(alloc, 3, &LEFT, &[])?;
    let primes = primes(alloc, clauses, &[], 3)?;
    let pairs = found_for(alloc, &ground, &primes);
    drop(primes);
    drop(ground);
    pairs
}

fn has(pairs: &Pairs, p: u32, q: u32) -> bool {
    pairs.has(AtomId(p), AtomId(q))
}

// Whether each two cells are a pair, in either order, and none is with itself.
fn finds_each_two(alloc: Global) -> Result<bool, Stop> {
    let pairs = found(alloc, &ONE_OF_THREE)?;
    let first = has(&pairs, 0, 1) && has(&pairs, 1, 0);
    Ok(first && has(&pairs, 0, 2) && has(&pairs, 1, 2) && !has(&pairs, 1, 1))
}

#[test]
fn finds_that_one_of_three_stays_one(rt: HostRuntime) -> Result<(), Fail> {
    assert!(rt; matches!(finds_each_two(rt.alloc()), Ok(true)));
    Ok(())
}

fn finds_none(alloc: Global) -> Result<bool, Stop> {
    let pairs = found(alloc, &ONE_OF_THREE[..1])?;
    Ok(!has(&pairs, 0, 1) && !has(&pairs, 0, 2) && !has(&pairs, 1, 2))
}

#[test]
fn finds_no_pair_where_all_may_be_true(rt: HostRuntime) -> Result<(), Fail> {
    assert!(rt; matches!(finds_none(rt.alloc()), Ok(true)));
    Ok(())
}
