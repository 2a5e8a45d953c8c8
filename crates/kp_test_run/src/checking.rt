use crate::running::{CELLS, DOMAIN, ONE_IS_FULL, PROBLEM, checks_so, is_so};

const MOVES: &str =
    "(define (domain f) (:types cell) (:predicates (at ?c - cell)) (:action move :parameters (?x ?y - cell) :precondition (at ?x) :effect (and (not (at ?x)) (at ?y))))";

const FROM_A_TO_B: &str =
    "(define (problem f) (:domain f) (:objects a b - cell) (:init (at a)) (:goal (at b)))";

// Plan files that are plans.
#[test]
fn plans_are_checked(rt: HostRuntime) {
    let alloc = rt.alloc();
    let no_goal = "(define (problem e) (:domain d) (:init (p)) (:goal (and)))";
    let cases = [
        ((CELLS, ONE_IS_FULL), "(left)(left)"),
        ((DOMAIN, PROBLEM), "(a)"),
        ((MOVES, FROM_A_TO_B), "(move a a)(move a b)"),
        ((DOMAIN, no_goal), ""),
    ];
    for (texts, plan) in cases {
        assert!(rt; is_so(checks_so(alloc, texts, plan, 0, "yes\n")));
    }
}

// Plan files that are none, with where they fail or are refused.
#[test]
fn failures_are_told(rt: HostRuntime) {
    let alloc = rt.alloc();
    let cells = (CELLS, ONE_IS_FULL);
    let given = (DOMAIN, PROBLEM);
    let cases = [
        (cells, "(left)", 1, "no\nstate (x3)\ngoal (x1)\n"),
        (given, "(b)", 3, "refused 20 StepUnknown\nstep 1 (b)\n"),
        (given, "(a)(a)", 1, "no\nstate (p)\nstep 2 (p)\n"),
        (
            given,
            "(a",
            3,
            "refused 19 PlanSyntax\nat plan line 1 byte 2\n",
        ),
    ];
    for (texts, plan, number, printed) in cases {
        assert!(rt; is_so(checks_so(alloc, texts, plan, number, printed)));
    }
}
