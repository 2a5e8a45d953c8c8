use crate::running::{CELLS, DOMAIN, ONE_IS_FULL, PROBLEM, is_so, says_so};
use kp_base::Memory;
use std::alloc::Global;
use std::test::Fail;

// Two actions of which one makes q true, whatever p is.
pub const EITHER: &str =
    "(define (domain c) (:predicates (p) (q)) (:action a :effect (when (p) (q))) (:action b :effect (when (not (p)) (q))))";

pub const NOTHING_OF_P: &str = "(define (problem c) (:domain c) (:init (unknown (p))) (:goal (q)))";

// One action that makes g true in each of four cases.
pub const FOUR: &str =
    "(define (domain e) (:predicates (p) (r) (g)) (:action a :effect (and (when (and (p) (r)) (g)) (when (and (p) (not (r))) (g)) (when (and (not (p)) (r)) (g)) (when (and (not (p)) (not (r))) (g)))))";

pub const NOTHING_OF_BOTH: &str =
    "(define (problem e) (:domain e) (:init (unknown (p)) (unknown (r))) (:goal (g)))";

// Whether a translation in this mode ends with 0 and prints this text.
fn translates(
    alloc: Global,
    texts: (&str, &str),
    mode: &str,
    printed: &str,
) -> Result<bool, Memory> {
    let said = ["translate", "d", "p", "od", "op", "--mode", mode];
    says_so(alloc, texts, said.as_slice(), 0, printed)
}

// Translations with the merges of single clauses, and what is printed.
#[test]
fn single_clauses_are_translated(rt: HostRuntime) {
    let alloc = rt.alloc();
    let cases = [
        (
            (CELLS, ONE_IS_FULL),
            "k1",
            "atoms 3\nactions 1\ntags 4\nmerges 1\nfacts 24\ncomplete\n",
        ),
        (
            (EITHER, NOTHING_OF_P),
            "k1",
            "atoms 2\nactions 2\ntags 3\nmerges 1\nfacts 12\ncomplete\n",
        ),
        (
            (FOUR, NOTHING_OF_BOTH),
            "k1",
            "atoms 3\nactions 1\ntags 5\nmerges 2\nfacts 30\nincomplete\nuncovered (g)\n",
        ),
    ];
    for (texts, mode, printed) in cases {
        assert!(rt; is_so(translates(alloc, texts, mode, printed)));
    }
}

// The modes that take two clauses for the target that needs both.
#[test]
fn two_clauses_are_translated(rt: HostRuntime) {
    let alloc = rt.alloc();
    let four = "atoms 3\nactions 1\ntags 5\nmerges 1\nfacts 30\ncomplete\n";
    for mode in ["k2", "k3", "models", "auto"] {
        assert!(rt; is_so(translates(alloc, (FOUR, NOTHING_OF_BOTH), mode, four)));
    }
}

// Where no mode is said, it is k1.
#[test]
fn the_usual_mode(rt: HostRuntime) -> Result<(), Fail> {
    let alloc = rt.alloc();
    let said = ["translate", "d", "p", "od", "op"];
    let printed = "atoms 3\nactions 1\ntags 4\nmerges 1\nfacts 24\ncomplete\n";
    assert!(rt; says_so(alloc, (CELLS, ONE_IS_FULL), said.as_slice(), 0, printed)?);
    Ok(())
}

// Whether the merges of this mode are printed so.
fn prints_merges(
    alloc: Global,
    texts: (&str, &str),
    mode: &str,
    printed: &str,
) -> Result<bool, Memory> {
    let said = ["merges", "d", "p", "--mode", mode];
    says_so(alloc, texts, said.as_slice(), 0, printed)
}

// The merges of modes, printed.
#[test]
fn merges_are_printed(rt: HostRuntime) {
    let alloc = rt.alloc();
    let cells = "(merge (x1) ((x1)) ((x2)) ((x3)))\n";
    let four = "(merge (g) ((p) (r)) ((p) (not (r))) ((not (p)) (r)) ((not (p)) (not (r))))\n";
    let cases = [
        ((CELLS, ONE_IS_FULL), "k1", cells),
        (
            (EITHER, NOTHING_OF_P),
            "k1",
            "(merge (q) ((p)) ((not (p))))\n",
        ),
        ((FOUR, NOTHING_OF_BOTH), "k2", four),
        ((FOUR, NOTHING_OF_BOTH), "models", four),
    ];
    for (texts, mode, printed) in cases {
        assert!(rt; is_so(prints_merges(alloc, texts, mode, printed)));
    }
}

// Files for which a mode has no merges.
#[test]
fn no_merges_are_printed(rt: HostRuntime) {
    let alloc = rt.alloc();
    assert!(rt; is_so(prints_merges(alloc, (CELLS, ONE_IS_FULL), "k0", "")));
    assert!(rt; is_so(prints_merges(alloc, (DOMAIN, PROBLEM), "models", "")));
}
