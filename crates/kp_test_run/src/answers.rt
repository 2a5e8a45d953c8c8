use crate::running::{CELLS, DOMAIN, ONE_IS_FULL, PROBLEM, ends_so, is_so};

const ADDS_AND_DELETES: &str =
    "(define (domain d) (:predicates (p) (q)) (:action a :precondition (p) :effect (and (q) (not (q)))))";

const ADDS_OR_DELETES: &str =
    "(define (domain d) (:predicates (p) (q)) (:action a :effect (and (when (p) (q)) (not (q)))))";

// Files that are translated, with what is counted of them.
#[test]
fn counts_are_told(rt: HostRuntime) {
    let alloc = rt.alloc();
    let cases = [
        (
            "(define (domain f) (:types cell) (:predicates (at ?c - cell)) (:action move :parameters (?x ?y - cell) :precondition (at ?x) :effect (and (not (at ?x)) (at ?y))))",
            "(define (problem f) (:domain f) (:objects a b - cell) (:init (at a)) (:goal (at b)))",
            "atoms 2\nactions 4\ntags 1\nmerges 0\nfacts 4\ncomplete\n",
        ),
        (
            CELLS,
            ONE_IS_FULL,
            "atoms 3\nactions 1\ntags 1\nmerges 0\nfacts 6\nincomplete\nuncovered (x1)\n",
        ),
        (
            DOMAIN,
            "(define (problem e) (:domain d) (:init (unknown (p))) (:goal (q)))",
            "atoms 2\nactions 1\ntags 1\nmerges 0\nfacts 4\ncomplete\n",
        ),
    ];
    for (domain, problem, printed) in cases {
        assert!(rt; is_so(ends_so(alloc, (domain, problem), &[], 0, printed)));
    }
}

// The same of an action that deletes what it adds.
#[test]
fn an_action_that_deletes_what_it_adds(rt: HostRuntime) {
    let alloc = rt.alloc();
    let cases = [
        (
            ADDS_OR_DELETES,
            PROBLEM,
            "atoms 1\nactions 1\ntags 1\nmerges 0\nfacts 2\ncomplete\n",
        ),
        (
            ADDS_AND_DELETES,
            PROBLEM,
            "atoms 1\nactions 1\ntags 1\nmerges 0\nfacts 2\ncomplete\n",
        ),
        (
            ADDS_AND_DELETES,
            "(define (problem e) (:domain d) (:init) (:goal (q)))",
            "atoms 1\nactions 0\ntags 1\nmerges 0\nfacts 2\ncomplete\n",
        ),
        (
            ADDS_AND_DELETES,
            "(define (problem e) (:domain d) (:init (not (p))) (:goal (q)))",
            "atoms 2\nactions 1\ntags 1\nmerges 0\nfacts 4\ncomplete\n",
        ),
    ];
    for (domain, problem, printed) in cases {
        assert!(rt; is_so(ends_so(alloc, (domain, problem), &[], 0, printed)));
    }
}

// Files without an initial state, and actions that clash.
#[test]
fn starts_and_clashes_are_refused(rt: HostRuntime) {
    let alloc = rt.alloc();
    let cases = [
        (
            DOMAIN,
            "(define (problem e) (:domain d) (:init (p) (not (p))) (:goal (q)))",
            "refused 12 NoInitialState\n",
        ),
        (
            CELLS,
            "(define (problem c) (:domain cells) (:init (or (x1) (x2) (x3))) (:goal (x1)))",
            "refused 13 Clash\naction (left)\natom (x2)\nadd (x3)\ndelete (x2)\n",
        ),
        (
            DOMAIN,
            "(define (problem e) (:domain d) (:init (oneof)) (:goal (q)))",
            "refused 12 NoInitialState\n",
        ),
        (
            ADDS_OR_DELETES,
            "(define (problem e) (:domain d) (:init (not (p))) (:goal (q)))",
            "refused 13 Clash\naction (a)\natom (q)\nadd (p)\ndelete\n",
        ),
    ];
    for (domain, problem, printed) in cases {
        assert!(rt; is_so(ends_so(alloc, (domain, problem), &[], 3, printed)));
    }
}
