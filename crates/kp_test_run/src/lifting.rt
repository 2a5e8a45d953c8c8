use crate::modes::{FOUR, NOTHING_OF_BOTH};
use crate::running::{CELLS, DOMAIN, ONE_IS_FULL, PROBLEM, is_so, lifts_so};
use std::test::Fail;

const MOVES: &str =
    "(define (domain f) (:types cell) (:predicates (at ?c - cell)) (:action move :parameters (?x ?y - cell) :precondition (at ?x) :effect (and (not (at ?x)) (at ?y))))";

const FROM_A_TO_B: &str =
    "(define (problem f) (:domain f) (:objects a b - cell) (:init (at a)) (:goal (at b)))";

pub const NO_GOAL: &str = "(define (problem e) (:domain d) (:init (p)) (:goal (and)))";

// Plans that lift, with their lines, and plans that don't.
#[test]
fn plans_are_lifted(rt: HostRuntime) {
    let alloc = rt.alloc();
    let cases = [
        (
            (CELLS, ONE_IS_FULL),
            "(left)(left)",
            0,
            "(do_-left)\n(do_-left)\n(merge_-0)\n",
        ),
        ((DOMAIN, PROBLEM), "(a)(a)", 1, "unlifted\nstep 2 (p)\n"),
        (
            (MOVES, FROM_A_TO_B),
            "(move a a)(move a b)",
            0,
            "(do_-move_-a_-a)\n(do_-move_-a_-b)\n",
        ),
        ((DOMAIN, NO_GOAL), "", 0, ""),
        (
            (DOMAIN, PROBLEM),
            "(b)",
            3,
            "refused 20 StepUnknown\nstep 1 (b)\n",
        ),
    ];
    for (texts, plan, number, printed) in cases {
        assert!(rt; is_so(lifts_so(alloc, texts, plan, &[], number, printed)));
    }
}

// A target that two clauses cover only together: `k1` loses the plan, `k2` doesn't.
#[test]
fn two_clauses_together(rt: HostRuntime) -> Result<(), Fail> {
    let alloc = rt.alloc();
    let ways = (FOUR, NOTHING_OF_BOTH);
    assert!(rt; lifts_so(alloc, ways, "(a)", &[], 1, "unlifted\ngoal (g)\n")?);
    assert!(rt;
        lifts_so(
            alloc,
            ways,
            "(a)",
            &["--mode", "k2"],
            0,
            "(do_-a)\n(merge_-0)\n"
        )?
    );
    Ok(())
}

// The mode decides which plans lift, and so do the merges of a file.
#[test]
fn tables_decide_what_lifts(rt: HostRuntime) -> Result<(), Fail> {
    let alloc = rt.alloc();
    let cells = (CELLS, ONE_IS_FULL);
    let twice = "(left)(left)";
    assert!(rt;
        lifts_so(
            alloc,
            cells,
            twice,
            &["--mode", "k0"],
            1,
            "unlifted\ngoal (x1)\n"
        )?
    );
    assert!(rt;
        lifts_so(
            alloc,
            cells,
            twice,
            &["--merges", "m"],
            0,
            "(do_-left)\n(do_-left)\n(merge_-0)\n"
        )?
    );
    Ok(())
}
