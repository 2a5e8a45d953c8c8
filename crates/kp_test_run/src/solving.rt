use crate::lifting::NO_GOAL;
use crate::modes::{EITHER, FOUR, NOTHING_OF_BOTH, NOTHING_OF_P};
use crate::running::{CELLS, DOMAIN, ONE_IS_FULL, PROBLEM, is_so, says_so, solves_so};
use kp_base::Memory;
use std::alloc::Global;
use std::test::Fail;

// The goal asks for what the only action takes away.
const BOTH: &str = "(define (problem e) (:domain d) (:init (p)) (:goal (and (p) (q))))";

pub const WRITTEN_DOMAIN: &str =
    "(define (domain kplan)\n(:requirements :strips :negative-preconditions :conditional-effects)\n(:predicates\n(kp_-p_-0)\n(kn_-p_-0)\n(kp_-q_-0)\n(kn_-q_-0)\n)\n(:action do_-a\n:parameters ()\n:precondition (and (kp_-p_-0))\n:effect (and\n(kp_-q_-0)\n(not (kn_-q_-0))\n(kn_-p_-0)\n(not (kp_-p_-0))\n)\n)\n)\n";

pub const WRITTEN_PROBLEM: &str =
    "(define (problem kplan)\n(:domain kplan)\n(:init\n(kp_-p_-0)\n(kn_-q_-0)\n)\n(:goal (and\n(kp_-q_-0)\n))\n)\n";

// Calls to solve by what is said behind their names, with the number they end with and what they print.
#[test]
fn problems_are_solved(rt: HostRuntime) {
    let alloc = rt.alloc();
    let cases = [
        ((DOMAIN, PROBLEM), 0, "(a)\n"),
        ((CELLS, ONE_IS_FULL), 0, "(left)\n(left)\n"),
        ((EITHER, NOTHING_OF_P), 0, "(a)\n(b)\n"),
        ((DOMAIN, NO_GOAL), 0, ""),
        ((DOMAIN, BOTH), 1, "no plan\ncomplete\n"),
        ((FOUR, NOTHING_OF_BOTH), 1, "no plan\nincomplete\n"),
    ];
    for (texts, number, printed) in cases {
        assert!(rt; is_so(says_so(alloc, texts, &["solve", "d", "p"], number, printed)));
    }
}

// Whether a call to solve with this option ends with this number and prints this text.
fn solves_with(
    alloc: Global,
    texts: (&str, &str),
    option: (&str, &str),
    number: u8,
    printed: &str,
) -> Result<bool, Memory> {
    let said = ["solve", "d", "p", option.0, option.1];
    says_so(alloc, texts, said.as_slice(), number, printed)
}

// What the options of a call to solve change.
#[test]
fn options_are_heeded(rt: HostRuntime) {
    let alloc = rt.alloc();
    let cells = (CELLS, ONE_IS_FULL);
    let cases = [
        (cells, ("--budget", "1"), 4, "spent 1\n"),
        (cells, ("--budget", "3"), 0, "(left)\n(left)\n"),
        (cells, ("--mode", "k0"), 1, "no plan\nincomplete\n"),
        ((FOUR, NOTHING_OF_BOTH), ("--mode", "k2"), 0, "(a)\n"),
    ];
    for (texts, option, number, printed) in cases {
        assert!(rt; is_so(solves_with(alloc, texts, option, number, printed)));
    }
}

// The plan of the written files is put under a name, where there is one.
#[test]
fn whole_plans_are_put(rt: HostRuntime) -> Result<(), Fail> {
    let alloc = rt.alloc();
    assert!(rt;
        solves_so(
            alloc,
            (CELLS, ONE_IS_FULL),
            "(left)\n(left)\n",
            Some("(do_-left)\n(do_-left)\n(merge_-0)\n")
        )?
    );
    assert!(rt;
        solves_so(
            alloc,
            (FOUR, NOTHING_OF_BOTH),
            "no plan\nincomplete\n",
            None
        )?
    );
    Ok(())
}

// Two classical files, and two that aren't.
#[test]
fn classical_files_are_solved(rt: HostRuntime) -> Result<(), Fail> {
    let alloc = rt.alloc();
    let cases = [
        ((WRITTEN_DOMAIN, WRITTEN_PROBLEM), 0, "(do_-a)\n"),
        ((DOMAIN, PROBLEM), 0, "(a)\n"),
        ((DOMAIN, BOTH), 1, "no plan\n"),
        (
            (CELLS, ONE_IS_FULL),
            3,
            "refused 22 NotClassical\nat problem line 1 byte 44\n",
        ),
    ];
    for (texts, number, printed) in cases {
        assert!(rt; says_so(alloc, texts, &["classical", "d", "p"], number, printed)?);
    }
    Ok(())
}
