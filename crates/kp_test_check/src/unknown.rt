use crate::given::{is_no, is_yes, judged};
use kp_base::{Ground, Memory, Stop};
use kp_check::Judged;
use kp_test_problems::{Sign, add, idle};
use std::alloc::Global;
use std::test::Fail;

// One step that adds q where p holds, and one that adds it where p doesn't.
fn add_both(alloc: Global, ground: &mut Ground, p: u32, q: u32) -> Result<(), Memory> {
    add(alloc, ground, &[], &[(&[(p, true)], (q, true))])?;
    add(alloc, ground, &[], &[(&[(p, false)], (q, true))])
}

// p and q, behind some atoms and before others that no action speaks of, with both steps.
fn either_way(alloc: Global, before: u8, behind: u8) -> Result<Ground, Memory> {
    let p = u32::from(before);
    let mut ground = idle(alloc, p + 2 + u32::from(behind), &[(p + 1, true)])?;
    add_both(alloc, &mut ground, p, p + 1)?;
    Ok(ground)
}

// q is false at first, and all others are unknown.
fn either_by(alloc: Global, before: u8, behind: u8, steps: &[u32]) -> Result<Judged, Stop> {
    let ground = either_way(alloc, before, behind)?;
    let p = u32::from(before);
    judged(
        alloc,
        ground,
        p + 2 + u32::from(behind),
        &[&[(p + 1, false)]],
        steps,
    )
}

fn both_steps_do(alloc: Global) -> bool {
    is_yes(&either_by(alloc, 0, 40, &[0, 1])) && is_yes(&either_by(alloc, 40, 0, &[0, 1]))
}

fn one_step_does_not(alloc: Global) -> bool {
    is_no(&either_by(alloc, 0, 40, &[0]), &[], 1, (1, true))
        && is_no(&either_by(alloc, 40, 0, &[0]), &[], 1, (41, true))
}

fn nor_does_the_other(alloc: Global) -> bool {
    is_no(&either_by(alloc, 0, 40, &[1]), &[0], 1, (1, true))
        && is_no(&either_by(alloc, 40, 0, &[1]), &[40], 1, (41, true))
}

// Forty unknown atoms that the steps never meet cost nothing, wherever they stand.
#[test]
fn passes_over_what_is_never_met(rt: HostRuntime) -> Result<(), Fail> {
    let alloc = rt.alloc();
    assert!(rt; both_steps_do(alloc));
    assert!(rt; one_step_does_not(alloc));
    assert!(rt; nor_does_the_other(alloc));
    Ok(())
}

const PAIRS: u32 = 30;

// All q of the pairs.
fn wanted(alloc: Global) -> Result<Vec<Sign>, Memory> {
    let mut signs = Vec::new(alloc);
    for i in 0..PAIRS {
        signs.push((PAIRS + i, true))?;
    }
    Ok(signs)
}

// Pairs of atoms p and q, all p first, without steps.
fn idle_pairs(alloc: Global) -> Result<Ground, Memory> {
    let wanted = wanted(alloc)?;
    let ground = idle(alloc, 2 * PAIRS, &wanted);
    drop(wanted);
    ground
}

// These pairs, with both steps for each.
fn pairs(alloc: Global) -> Result<Ground, Memory> {
    let mut ground = idle_pairs(alloc)?;
    for i in 0..PAIRS {
        add_both(alloc, &mut ground, i, PAIRS + i)?;
    }
    Ok(ground)
}

// The numbers below the first, without the second.
fn all_but(alloc: Global, count: u32, left_out: u32) -> Result<Vec<u32>, Memory> {
    let mut numbers = Vec::new(alloc);
    for i in 0..count {
        if i != left_out {
            numbers.push(i)?;
        }
    }
    Ok(numbers)
}

// All p are unknown, and whether some q holds at first is unknown too.
fn pairs_without(alloc: Global, left_out: u32) -> Result<Judged, Stop> {
    let ground = pairs(alloc)?;
    let steps = all_but(alloc, 2 * PAIRS, left_out)?;
    let judged = judged(alloc, ground, 2 * PAIRS, &[], &steps);
    drop(steps);
    judged
}

fn all_steps_do(alloc: Global) -> bool {
    is_yes(&pairs_without(alloc, 2 * PAIRS))
}

// Without the last step the last q doesn't come where the last p is false.
fn needs_the_last(alloc: Global) -> bool {
    is_no(
        &pairs_without(alloc, 2 * PAIRS - 1),
        &[],
        2 * PAIRS - 1,
        (2 * PAIRS - 1, true),
    )
}

// Without the first step the first q doesn't come where the first p is true.
fn needs_the_first(alloc: Global) -> bool {
    is_no(&pairs_without(alloc, 0), &[0], 2 * PAIRS - 1, (PAIRS, true))
}

// Atoms that are handled one by one are not tried together.
#[test]
fn handles_unknown_atoms_one_by_one(rt: HostRuntime) -> Result<(), Fail> {
    let alloc = rt.alloc();
    assert!(rt; all_steps_do(alloc));
    assert!(rt; needs_the_last(alloc));
    assert!(rt; needs_the_first(alloc));
    Ok(())
}

const THIRTY: [u32; 30] = [
    0, 1, 2, 3, 4, 5, 6, 7, 8, 9, 10, 11, 12, 13, 14, 15, 16, 17, 18, 19, 20, 21, 22, 23, 24, 25,
    26, 27, 28, 29,
];

// A step for each of thirty atoms that adds the last atom where that one is false.
fn wants_one_absent(alloc: Global) -> Result<Ground, Memory> {
    let mut ground = idle(alloc, 31, &[(30, true)])?;
    for i in 0..30 {
        add(alloc, &mut ground, &[], &[(&[(i, false)], (30, true))])?;
    }
    Ok(ground)
}

fn fails_where_all_are_present(alloc: Global) -> Result<Judged, Stop> {
    let ground = wants_one_absent(alloc)?;
    judged(alloc, ground, 31, &[&[(30, false)]], &THIRTY)
}

// One state of two to the thirtieth is at fault.
#[test]
fn finds_the_one_state_that_fails(rt: HostRuntime) -> Result<(), Fail> {
    assert!(rt;
        is_no(
            &fails_where_all_are_present(rt.alloc()),
            &THIRTY,
            30,
            (30, true)
        )
    );
    Ok(())
}
