use crate::given::{is_no, is_yes, judged};
use kp_base::{Ground, Memory, Stop};
use kp_check::Judged;
use kp_test_problems::{Sign, add, idle};
use std::alloc::Global;
use std::test::Fail;

// Where p holds, q comes and p goes.
fn once(alloc: Global, goal: &[Sign]) -> Result<Ground, Memory> {
    let mut ground = idle(alloc, 2, goal)?;
    add(
        alloc,
        &mut ground,
        &[(0, true)],
        &[(&[], (1, true)), (&[], (0, false))],
    )?;
    Ok(ground)
}

fn once_by(alloc: Global, goal: &[Sign], steps: &[u32]) -> Result<Judged, Stop> {
    let ground = once(alloc, goal)?;
    judged(alloc, ground, 2, &[&[(0, true)], &[(1, false)]], steps)
}

fn is_taken_once(alloc: Global) -> bool {
    is_yes(&once_by(alloc, &[(1, true)], &[0])) && is_yes(&once_by(alloc, &[], &[]))
}

fn fails_twice(alloc: Global) -> bool {
    is_no(&once_by(alloc, &[(1, true)], &[0, 0]), &[0], 1, (0, true))
}

fn fails_without_steps(alloc: Global) -> bool {
    is_no(&once_by(alloc, &[(1, true)], &[]), &[0], 0, (1, true))
}

// No steps reach an empty goal. A step that takes away what it needs may be taken once.
#[test]
fn takes_a_step_once(rt: HostRuntime) -> Result<(), Fail> {
    let alloc = rt.alloc();
    assert!(rt; is_taken_once(alloc));
    assert!(rt; fails_twice(alloc));
    assert!(rt; fails_without_steps(alloc));
    Ok(())
}

// Moves from each of two places to each, which take what is at the first to the second.
fn add_moves(alloc: Global, ground: &mut Ground) -> Result<(), Memory> {
    add(alloc, ground, &[(0, true)], &[(&[], (0, true))])?;
    add(
        alloc,
        ground,
        &[(0, true)],
        &[(&[], (0, false)), (&[], (1, true))],
    )?;
    add(
        alloc,
        ground,
        &[(1, true)],
        &[(&[], (1, false)), (&[], (0, true))],
    )?;
    add(alloc, ground, &[(1, true)], &[(&[], (1, true))])
}

fn moves(alloc: Global) -> Result<Ground, Memory> {
    let mut ground = idle(alloc, 2, &[(1, true)])?;
    add_moves(alloc, &mut ground)?;
    Ok(ground)
}

fn moved_by(alloc: Global, steps: &[u32]) -> Result<Judged, Stop> {
    let ground = moves(alloc)?;
    judged(alloc, ground, 2, &[&[(0, true)], &[(1, false)]], steps)
}

fn stays_and_goes(alloc: Global) -> bool {
    is_yes(&moved_by(alloc, &[0, 1])) && is_no(&moved_by(alloc, &[1, 1]), &[0], 1, (0, true))
}

#[test]
fn moves_from_place_to_place(rt: HostRuntime) -> Result<(), Fail> {
    assert!(rt; stays_and_goes(rt.alloc()));
    Ok(())
}

const ONE_OF_THREE: [&[Sign]; 4] = [
    &[(0, true), (1, true), (2, true)],
    &[(0, false), (1, false)],
    &[(0, false), (2, false)],
    &[(1, false), (2, false)],
];

// Three cells of which one is full; what is in it comes one to the left.
fn cells(alloc: Global) -> Result<Ground, Memory> {
    let mut ground = idle(alloc, 3, &[(0, true)])?;
    add(
        alloc,
        &mut ground,
        &[],
        &[
            (&[(2, true)], (1, true)),
            (&[(2, true)], (2, false)),
            (&[(1, true)], (0, true)),
            (&[(1, true)], (1, false)),
        ],
    )?;
    Ok(ground)
}

fn left_by(alloc: Global, steps: &[u32]) -> Result<Judged, Stop> {
    let ground = cells(alloc)?;
    judged(alloc, ground, 3, &ONE_OF_THREE, steps)
}

fn needs_two(alloc: Global) -> bool {
    is_yes(&left_by(alloc, &[0, 0])) && is_no(&left_by(alloc, &[0]), &[2], 1, (0, true))
}

fn needs_some(alloc: Global) -> bool {
    is_no(&left_by(alloc, &[]), &[2], 0, (0, true))
}

#[test]
fn brings_each_cell_to_the_left(rt: HostRuntime) -> Result<(), Fail> {
    assert!(rt; needs_two(rt.alloc()));
    assert!(rt; needs_some(rt.alloc()));
    Ok(())
}

// One step that changes nothing, with a precondition, on three atoms.
fn asks(alloc: Global, pre: &[Sign], stated: &[&[Sign]]) -> Result<Judged, Stop> {
    let mut ground = idle(alloc, 3, &[])?;
    add(alloc, &mut ground, pre, &[])?;
    judged(alloc, ground, 3, stated, &[0])
}

fn tells_the_least(alloc: Global) -> bool {
    is_no(
        &asks(alloc, &[(2, true), (1, true)], &[]),
        &[],
        0,
        (1, true),
    ) && is_no(
        &asks(alloc, &[(2, true), (1, true)], &[&[(1, true)]]),
        &[1],
        0,
        (2, true),
    )
}

fn tells_a_negation(alloc: Global) -> bool {
    is_no(&asks(alloc, &[(1, false)], &[]), &[1], 0, (1, false))
        && is_no(
            &asks(
                alloc,
                &[(1, false)],
                &[&[(0, true)], &[(1, true), (2, true)]],
            ),
            &[0, 1],
            0,
            (1, false),
        )
}

// Of the states from which a step fails the first is told, and of its literals that are false the least.
#[test]
fn tells_the_first_state_and_the_least_literal(rt: HostRuntime) -> Result<(), Fail> {
    assert!(rt; tells_the_least(rt.alloc()));
    assert!(rt; tells_a_negation(rt.alloc()));
    Ok(())
}

// A step that adds and deletes the first of two atoms, each where the second holds, and the second too.
fn opposed(alloc: Global, goal: &[Sign], steps: &[u32]) -> Result<Judged, Stop> {
    let mut ground = idle(alloc, 2, goal)?;
    add(
        alloc,
        &mut ground,
        &[],
        &[
            (&[(1, true)], (0, true)),
            (&[(1, true)], (0, false)),
            (&[(1, true)], (1, false)),
        ],
    )?;
    judged(alloc, ground, 2, &[&[(0, false)], &[(1, true)]], steps)
}

fn adds_win(alloc: Global) -> bool {
    is_yes(&opposed(alloc, &[(0, true), (1, false)], &[0, 0]))
        && is_no(&opposed(alloc, &[(0, true)], &[]), &[1], 0, (0, true))
}

// Conditions are read before the step, and an add wins over a delete.
#[test]
fn adds_win_over_deletes(rt: HostRuntime) -> Result<(), Fail> {
    assert!(rt; adds_win(rt.alloc()));
    Ok(())
}
