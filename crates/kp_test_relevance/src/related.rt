use crate::given::relevance_of;
use kp_base::{Ground, Memory};
use kp_relevance::Relevance;
use kp_test_problems::{LEFT, Sign, add, idle, literal, single};
use std::alloc::Global;
use std::test::Fail;

// Whether just these literals, of the atoms below six, are relevant to the target.
fn are_just(relevance: &Relevance, target: Sign, expected: &[Sign]) -> bool {
    (0..6).all(|p| is_as(relevance, target, expected, (p, true)))
        && (0..6).all(|p| is_as(relevance, target, expected, (p, false)))
}

fn is_as(relevance: &Relevance, target: Sign, expected: &[Sign], from: Sign) -> bool {
    let listed = expected.iter().any(|e| e.0 == from.0 && e.1 == from.1);
    relevance.relevant(literal(from), literal(target)) == listed
}

fn asked(relevance: &Result<Relevance, Memory>, target: Sign, expected: &[Sign]) -> bool {
    match relevance {
        Ok(relevance) => are_just(relevance, target, expected),
        Err(_) => false,
    }
}

fn is_first_cell_reached(alloc: Global) -> bool {
    let relevance = relevance_of(alloc, single(alloc, 3, &LEFT, &[]));
    asked(
        &relevance,
        (0, true),
        &[(0, true), (1, true), (1, false), (2, true), (2, false)],
    ) && asked(
        &relevance,
        (0, false),
        &[(0, false), (1, true), (1, false), (2, true), (2, false)],
    )
}

fn is_last_cell_its_own(alloc: Global) -> bool {
    let relevance = relevance_of(alloc, single(alloc, 3, &LEFT, &[]));
    asked(&relevance, (2, true), &[(2, true), (2, false)]) && asked(&relevance, (5, true), &[])
}

// A step takes what is in a cell one to the left. What is to its right matters for a cell, whether full or empty; what
// is to its left doesn't.
#[test]
fn goes_along_three_cells(rt: HostRuntime) -> Result<(), Fail> {
    assert!(rt; is_first_cell_reached(rt.alloc()));
    assert!(rt; is_last_cell_its_own(rt.alloc()));
    Ok(())
}

// Where p holds q comes, and where q doesn't r does: so p matters for not r, and not p for r.
fn is_chained_over_a_negation(alloc: Global) -> bool {
    let relevance = relevance_of(
        alloc,
        single(
            alloc,
            3,
            &[(&[(0, true)], (1, true)), (&[(1, false)], (2, true))],
            &[],
        ),
    );
    asked(&relevance, (2, false), &[(2, false), (1, true), (0, true)])
        && asked(&relevance, (2, true), &[(2, true), (1, false), (0, false)])
        && asked(&relevance, (0, true), &[(0, true)])
}

#[test]
fn goes_over_negations(rt: HostRuntime) -> Result<(), Fail> {
    assert!(rt; is_chained_over_a_negation(rt.alloc()));
    Ok(())
}

fn needing_once(alloc: Global) -> Result<Ground, Memory> {
    let mut ground = idle(alloc, 3, &[])?;
    add(alloc, &mut ground, &[(0, true)], &[(&[], (1, true))])?;
    Ok(ground)
}

fn needing(alloc: Global) -> Result<Ground, Memory> {
    let mut ground = needing_once(alloc)?;
    add(
        alloc,
        &mut ground,
        &[(1, true)],
        &[(&[(2, true)], (0, true))],
    )?;
    Ok(ground)
}

fn is_precondition_left_out(alloc: Global) -> bool {
    let relevance = relevance_of(alloc, needing(alloc));
    asked(&relevance, (1, true), &[(1, true)])
        && asked(&relevance, (0, true), &[(0, true), (2, true)])
}

// What an action needs doesn't matter for what it brings; the condition of an effect does.
#[test]
fn leaves_preconditions_out(rt: HostRuntime) -> Result<(), Fail> {
    assert!(rt; is_precondition_left_out(rt.alloc()));
    Ok(())
}

fn is_itself_alone(alloc: Global) -> bool {
    let relevance = relevance_of(alloc, idle(alloc, 3, &[]));
    asked(&relevance, (0, true), &[(0, true)]) && asked(&relevance, (2, false), &[(2, false)])
}

// Without actions each literal matters for itself alone.
#[test]
fn has_each_literal_itself(rt: HostRuntime) -> Result<(), Fail> {
    assert!(rt; is_itself_alone(rt.alloc()));
    Ok(())
}

// Each of a hundred atoms brings the one before it.
fn line(alloc: Global) -> Result<Ground, Memory> {
    let mut ground = idle(alloc, 100, &[])?;
    for p in 0..99u32 {
        add(alloc, &mut ground, &[], &[(&[(p + 1, true)], (p, true))])?;
    }
    Ok(ground)
}

fn comes_from_all(relevance: &Relevance, target: Sign) -> bool {
    (0..100).all(|p| relevance.relevant(literal((p, target.1)), literal(target)))
        && (0..100).all(|p| !relevance.relevant(literal((p, !target.1)), literal(target)))
}

fn is_long_line_closed(alloc: Global) -> bool {
    match &relevance_of(alloc, line(alloc)) {
        Ok(relevance) => {
            comes_from_all(relevance, (0, true)) && comes_from_all(relevance, (0, false))
        }
        Err(_) => false,
    }
}

#[test]
fn goes_along_a_hundred(rt: HostRuntime) -> Result<(), Fail> {
    assert!(rt; is_long_line_closed(rt.alloc()));
    Ok(())
}
