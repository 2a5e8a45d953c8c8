use crate::running::{DOMAIN, PROBLEM, is_so, refuses};
use std::test::Fail;

// The first fault of a domain is told.
#[test]
fn the_first_refusal_of_a_domain(rt: HostRuntime) {
    let alloc = rt.alloc();
    let cases = [
        (
            "(define (domain d) (:action a :effect",
            "refused 3 Syntax\nat domain line 1 byte 37\n",
        ),
        (
            "(define (domain d) (:predicates (p.)))",
            "refused 2 BadToken\nat domain line 1 byte 34\n",
        ),
        (
            "(define (domain d) (:predicates (p) (q)) (:action a :precondition (p) :effect (and (q) (not (p)))) (:functions (f)))",
            "refused 4 Unsupported\nat domain line 1 byte 100\n",
        ),
        (
            "(define (domain d) (:predicates (p) (q) (P)) (:action a :precondition (p) :effect (and (q) (not (p)))))",
            "refused 6 DeclaredTwice\nat domain line 1 byte 41\n",
        ),
        (
            "(define (domain d) (:types c) (:predicates (at ?x - c)) (:action a :parameters (?x - c)\n:effect (at ?y)))",
            "refused 5 UnknownName\nat domain line 2 byte 100\n",
        ),
    ];
    for (domain, printed) in cases {
        assert!(rt; is_so(refuses(alloc, domain.as_bytes(), PROBLEM.as_bytes(), printed)));
    }
}

// The first fault of a problem is told, where its domain has none.
#[test]
fn the_first_refusal_of_a_problem(rt: HostRuntime) {
    let alloc = rt.alloc();
    let cases = [
        (
            "(define (problem e) (:domain d) (:init (p)) (:goal (y)))",
            "refused 5 UnknownName\nat problem line 1 byte 52\n",
        ),
        (
            "(define (problem e) (:domain d) (:init (p)) (:goal (p z)))",
            "refused 7 WrongUse\nat problem line 1 byte 52\n",
        ),
        (
            "(define (problem e) (:domain d) (:init (p)) (:goal (q)) (:goal (q)))",
            "refused 3 Syntax\nat problem line 1 byte 57\n",
        ),
        (
            "(define (problem e) (:domain d) (:init (p)))",
            "refused 3 Syntax\nat problem line 1 byte 43\n",
        ),
    ];
    for (problem, printed) in cases {
        assert!(rt; is_so(refuses(alloc, DOMAIN.as_bytes(), problem.as_bytes(), printed)));
    }
}

// Of faults in both files the first in the order of answers is told.
#[test]
fn the_first_refusal_of_both(rt: HostRuntime) {
    let alloc = rt.alloc();
    let cases = [
        (
            "(define (domain d) (:predicates (p)) (:action a :effect",
            "(define (problem e) ?)",
            "refused 3 Syntax\nat domain line 1 byte 55\n",
        ),
        (
            "(define (domain d) (:predicates (p) (q)) (:action a :effect (r)))",
            "(define (problem e) ?)",
            "refused 2 BadToken\nat problem line 1 byte 20\n",
        ),
        (
            "(define (domain d) (:predicates (p) (q)) (:action a :effect (r)))",
            "(define (problem e) (:domain d) (:init (p)) (:goal (y)))",
            "refused 5 UnknownName\nat domain line 1 byte 61\n",
        ),
    ];
    for (domain, problem, printed) in cases {
        assert!(rt; is_so(refuses(alloc, domain.as_bytes(), problem.as_bytes(), printed)));
    }
}

// A domain whose 65th bracket opens at byte 354.
#[test]
fn one_bracket_too_deep(rt: HostRuntime) -> Result<(), Fail> {
    let alloc = rt.alloc();
    let mut domain = Vec::new(alloc);
    domain.extend_from_slice(b"(define (domain d) (:action a :precondition ")?;
    for _ in 0..63 {
        domain.extend_from_slice(b"(and ")?;
    }
    let printed = "refused 3 Syntax\nat domain line 1 byte 354\n";
    assert!(rt; refuses(alloc, &domain, PROBLEM.as_bytes(), printed)?);
    Ok(())
}
