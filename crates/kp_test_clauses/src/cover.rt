use kp_base::{AtomId, Initial, LitSet, Memory, Row, Stop};
use kp_cover::{Validity, valid};
use kp_primes::{Primes, are_of_atoms};
use kp_test_problems::{ONE_OF_THREE, Sign, are_atoms, literal, primes, primes_within, set, sets};
use std::alloc::Global;
use std::test::Fail;

fn judged(alloc: Global, primes: &Primes, tags: &Row<LitSet>) -> Result<Validity, Memory> {
    if !are_of_atoms(tags.slice(), primes.atoms()) {
        return Err(Memory);
    }
    valid(alloc, primes, tags)
}

// Whether the tags are invalid, and the first state outside has these atoms.
fn is_first_outside(judged: &Validity, atoms: &[u32]) -> bool {
    match judged {
        Validity::Valid => false,
        Validity::Invalid(state) => are_atoms(state.slice(), atoms),
    }
}

fn judge(
    alloc: Global,
    clauses: &[&[Sign]],
    closed: &[u32],
    tags: &[&[Sign]],
) -> Result<Validity, Stop> {
    let primes = primes(alloc, clauses, closed, 3)?;
    let tags = sets(alloc, tags)?;
    let judged = judged(alloc, &primes, &tags);
    drop(tags);
    drop(primes);
    Ok(judged?)
}

fn is_valid(alloc: Global, clauses: &[&[Sign]], closed: &[u32], tags: &[&[Sign]]) -> bool {
    matches!(judge(alloc, clauses, closed, tags), Ok(Validity::Valid))
}

fn leaves(
    alloc: Global,
    clauses: &[&[Sign]],
    closed: &[u32],
    tags: &[&[Sign]],
    first: &[u32],
) -> bool {
    match &judge(alloc, clauses, closed, tags) {
        Ok(judged) => is_first_outside(judged, first),
        Err(_) => false,
    }
}

// Just one of three cells is full.
#[test]
fn needs_a_tag_for_each_cell(rt: HostRuntime) -> Result<(), Fail> {
    let alloc = rt.alloc();
    let cells: [&[Sign]; 3] = [&[(0, true)], &[(1, true)], &[(2, true)]];
    assert!(rt; leaves(alloc, &ONE_OF_THREE, &[], &cells[..2], &[2]));
    assert!(rt; leaves(alloc, &ONE_OF_THREE, &[], &[], &[2]));
    assert!(rt; is_valid(alloc, &ONE_OF_THREE, &[], &cells));
    Ok(())
}

// Where all of three atoms are unknown, the first state outside lacks the first atom if it may, then the second.
#[test]
fn tells_the_first_state(rt: HostRuntime) -> Result<(), Fail> {
    let alloc = rt.alloc();
    assert!(rt; leaves(alloc, &[], &[], &[&[(0, false), (1, false)]], &[1]));
    assert!(rt; leaves(alloc, &[], &[], &[&[(0, false)]], &[0]));
    assert!(rt; leaves(alloc, &[], &[], &[&[(0, true)], &[(2, false)]], &[2]));
    Ok(())
}

// The empty tag is true in each state, and a closed atom is false in each.
#[test]
fn takes_the_empty_tag(rt: HostRuntime) -> Result<(), Fail> {
    let alloc = rt.alloc();
    assert!(rt; is_valid(alloc, &[], &[], &[&[]]));
    assert!(rt; is_valid(alloc, &[], &[1], &[&[(0, true)], &[(0, false), (1, false)]]));
    Ok(())
}

fn pairs_of(alloc: Global, row: &mut Row<LitSet>, cells: u32) -> Result<(), Memory> {
    for i in 0..cells {
        for j in i + 1..cells {
            row.push(set(alloc, &[(i, false), (j, false)])?)?;
        }
    }
    Ok(())
}

fn some_of(alloc: Global, cells: u32) -> Result<LitSet, Memory> {
    let mut some = LitSet::new(alloc);
    for i in 0..cells {
        some.insert(literal((i, true)))?;
    }
    Ok(some)
}

// Just one of so many cells is full.
fn line(alloc: Global, cells: u32) -> Result<Row<LitSet>, Memory> {
    let mut row = Row::new(alloc);
    row.push(some_of(alloc, cells)?)?;
    pairs_of(alloc, &mut row, cells)?;
    Ok(row)
}

fn primes_of(alloc: Global, clauses: Row<LitSet>, atoms: u32) -> Result<Primes, Stop> {
    let initial = Initial {
        clauses,
        closed: Row::new(alloc),
    };
    let primes = primes_within(alloc, &initial, atoms, 1000);
    drop(initial);
    primes
}

// A tag for each cell but one.
fn cells_but(alloc: Global, cells: u32, out: u32) -> Result<Row<LitSet>, Memory> {
    let mut row = Row::new(alloc);
    for i in 0..cells {
        if i != out {
            row.push(set(alloc, &[(i, true)])?)?;
        }
    }
    Ok(row)
}

fn judge_line(alloc: Global, primes: &Primes, out: u32) -> Result<Validity, Memory> {
    let tags = cells_but(alloc, 30, out)?;
    judged(alloc, primes, &tags)
}

fn tells_the_cell(alloc: Global, primes: &Primes, out: u32) -> bool {
    match &judge_line(alloc, primes, out) {
        Ok(judged) => is_first_outside(judged, &[out]),
        Err(_) => false,
    }
}

fn line_of_thirty(alloc: Global) -> Result<bool, Stop> {
    let primes = primes_of(alloc, line(alloc, 30)?, 30)?;
    let missing = tells_the_cell(alloc, &primes, 3) && tells_the_cell(alloc, &primes, 29);
    let all = matches!(judge_line(alloc, &primes, 30), Ok(Validity::Valid));
    drop(primes);
    Ok(missing && all)
}

#[test]
fn judges_a_line_of_thirty_cells(rt: HostRuntime) -> Result<(), Fail> {
    assert!(rt; matches!(line_of_thirty(rt.alloc()), Ok(true)));
    Ok(())
}

// One tag more, of two literals.
fn add_tag(alloc: Global, row: &mut Row<LitSet>, lits: [Sign; 2]) -> Result<(), Memory> {
    row.push(set(alloc, &lits)?)?;
    Ok(())
}

// For each of twenty pairs of atoms that both are true, and that neither is; and that the first atom of a pair is true
// with the second of one of the next three pairs.
fn pair_tags(alloc: Global) -> Result<Row<LitSet>, Memory> {
    let mut row = Row::new(alloc);
    for j in 0..20 {
        add_tag(alloc, &mut row, [(2 * j, true), (2 * j + 1, true)])?;
        add_tag(alloc, &mut row, [(2 * j, false), (2 * j + 1, false)])?;
        for d in 1..4 {
            let other = (j + d) % 20;
            add_tag(alloc, &mut row, [(2 * j, true), (2 * other + 1, true)])?;
        }
    }
    Ok(row)
}

// A hundred tags; a hundred atoms are unknown, and sixty of them are in no tag.
fn judge_pairs(alloc: Global) -> Result<Validity, Stop> {
    let primes = primes_of(alloc, Row::new(alloc), 100)?;
    let tags = pair_tags(alloc)?;
    let judged = judged(alloc, &primes, &tags);
    drop(tags);
    drop(primes);
    Ok(judged?)
}

// The first state outside has the second atom of each pair.
fn has_the_second_of_each(state: &Row<AtomId>) -> bool {
    state.len() == 20
        && state
            .slice()
            .iter()
            .zip(0..20)
            .all(|(a, j)| a.0 == 2 * j + 1)
}

#[test]
fn judges_a_hundred_tags(rt: HostRuntime) -> Result<(), Fail> {
    let judged = judge_pairs(rt.alloc());
    let first = match &judged {
        Ok(Validity::Invalid(state)) => has_the_second_of_each(state),
        _ => false,
    };
    drop(judged);
    assert!(rt; first);
    Ok(())
}
