use kp_base::{Initial, LitSet, Memory, Refused, Row, Stop};
use kp_primes::Primes;
use kp_test_problems::{ONE_OF_THREE, Sign, formula, literal, primes_within, set};
use std::alloc::Global;
use std::test::Fail;

fn build(alloc: Global, clauses: &[&[Sign]], closed: &[u32], limit: u32) -> Result<Primes, Stop> {
    let initial = formula(alloc, clauses, closed)?;
    let primes = primes_within(alloc, &initial, 3, limit);
    drop(initial);
    primes
}

fn closure(alloc: Global, primes: &Primes, lits: &[Sign]) -> Result<Option<LitSet>, Memory> {
    let tag = set(alloc, lits)?;
    primes.closure(alloc, &tag)
}

fn closes_to(
    alloc: Global,
    primes: &Primes,
    lits: &[Sign],
    wanted: &[Sign],
) -> Result<bool, Memory> {
    let wanted = set(alloc, wanted)?;
    let found = closure(alloc, primes, lits)?;
    Ok(found == Some(wanted))
}

fn has_no_closure(alloc: Global, primes: &Primes, lits: &[Sign]) -> Result<bool, Memory> {
    let found = closure(alloc, primes, lits)?;
    Ok(found.is_none())
}

// With the first of three the two others are false; two of them can't be true together.
fn closes_one_and_two(alloc: Global) -> Result<bool, Stop> {
    let primes = build(alloc, &ONE_OF_THREE, &[], 100)?;
    let wanted = &[(0, true), (1, false), (2, false)];
    let first = closes_to(alloc, &primes, &[(0, true)], wanted);
    let both = has_no_closure(alloc, &primes, &[(0, true), (1, true)]);
    drop(primes);
    Ok(first? && both?)
}

#[test]
fn closes_tags(rt: HostRuntime) -> Result<(), Fail> {
    assert!(rt; matches!(closes_one_and_two(rt.alloc()), Ok(true)));
    Ok(())
}

fn is_consistent(alloc: Global, primes: &Primes, lits: &[Sign]) -> Result<bool, Memory> {
    let tag = set(alloc, lits)?;
    Ok(primes.consistent(&tag))
}

fn tells_two_apart(alloc: Global) -> Result<bool, Stop> {
    let primes = build(alloc, &ONE_OF_THREE, &[], 100)?;
    let first = is_consistent(alloc, &primes, &[(0, true)]);
    let both = is_consistent(alloc, &primes, &[(0, true), (1, true)]);
    let many = primes.clauses().len();
    drop(primes);
    Ok(first? && !both? && many == 4)
}

#[test]
fn tells_consistent_tags(rt: HostRuntime) -> Result<(), Fail> {
    assert!(rt; matches!(tells_two_apart(rt.alloc()), Ok(true)));
    Ok(())
}

// The number of clauses that have more prime implicates than a limit, if that is why a build is refused.
fn prefix_over(built: Result<Primes, Stop>) -> Option<u64> {
    match built {
        Err(Stop::Refused(Refused::ImplicatesOver { prefix })) => Some(prefix),
        _ => None,
    }
}

#[test]
fn counts_the_prime_implicates(rt: HostRuntime) -> Result<(), Fail> {
    let clauses: [&[Sign]; 2] = [&[(0, true), (1, true)], &[(0, false), (2, true)]];
    // The resolvent is a third.
    assert!(rt; prefix_over(build(rt.alloc(), &clauses, &[], 2)) == Some(2));
    assert!(rt; build(rt.alloc(), &clauses, &[], 3).is_ok());
    Ok(())
}

fn has_no_state(built: Result<Primes, Stop>) -> bool {
    matches!(&built, Err(Stop::Refused(Refused::NoInitialState)))
}

#[test]
fn finds_no_initial_state(rt: HostRuntime) -> Result<(), Fail> {
    let clauses: [&[Sign]; 1] = [&[(0, true), (1, true)]];
    assert!(rt; has_no_state(build(rt.alloc(), &clauses, &[0, 1], 1)));
    Ok(())
}

// Where one of two atoms is closed, the other is entailed.
fn entails_the_other(alloc: Global) -> Result<bool, Stop> {
    let clauses: [&[Sign]; 1] = [&[(0, true), (1, true)]];
    let primes = build(alloc, &clauses, &[0], 1)?;
    let tag = LitSet::new(alloc);
    Ok(primes.entails(&tag, literal((1, true))))
}

#[test]
fn tells_what_is_entailed(rt: HostRuntime) -> Result<(), Fail> {
    assert!(rt; matches!(entails_the_other(rt.alloc()), Ok(true)));
    Ok(())
}

// Four atoms of which each implies fourteen others of its own, and then that one of the four holds: 15 to the fourth
// power new prime implicates come with the last clause alone.
fn fan_clauses(alloc: Global) -> Result<Row<LitSet>, Memory> {
    let mut row = Row::new(alloc);
    for i in 0..4 {
        for j in 0..14 {
            row.push(set(alloc, &[(i, false), (4 + 14 * i + j, true)])?)?;
        }
    }
    row.push(set(alloc, &[(0, true), (1, true), (2, true), (3, true)])?)?;
    Ok(row)
}

fn fan(alloc: Global) -> Result<Initial, Memory> {
    let clauses = fan_clauses(alloc)?;
    Ok(Initial {
        clauses,
        closed: Row::new(alloc),
    })
}

#[test]
fn stops_within_a_clause(rt: HostRuntime) -> Result<(), Fail> {
    let initial = fan(rt.alloc())?;
    let prefix = prefix_over(primes_within(rt.alloc(), &initial, 60, 300));
    drop(initial);
    assert!(rt; prefix == Some(57));
    Ok(())
}
