use crate::modes::{FOUR, NOTHING_OF_BOTH};
use crate::running::{CELLS, DOMAIN, ONE_IS_FULL, PROBLEM, USAGE, is_so, says_so};
use kp_base::Memory;
use std::alloc::Global;
use std::test::Fail;

// Three cells of which several may be full.
const SOME_ARE_FULL: &str =
    "(define (problem c) (:domain cells) (:init (or (x1) (x2) (x3))) (:goal (x1)))";

const CELLS_WIDTH: &str =
    "width 1\ntarget (x1) width 1\nclause (x1) (x2) (x3)\ntag (x1)\ntag (x2)\ntag (x3)\n";

const FOUR_WIDTH: &str =
    "width 2\ntarget (g) width 2\nclause (p) (not (p))\nclause (r) (not (r))\ntag (p) (r)\ntag (p) (not (r))\ntag (not (p)) (r)\ntag (not (p)) (not (r))\n";

// Whether the width of these files, with what is said of its bound, ends with this number and prints this text.
fn tells(
    alloc: Global,
    texts: (&str, &str),
    bound: &str,
    number: u8,
    printed: &str,
) -> Result<bool, Memory> {
    let said = ["width", "d", "p", "--bound", bound];
    says_so(alloc, texts, said.as_slice(), number, printed)
}

// Two files with a bound, and what is printed: the width, or the first target over the bound.
#[test]
fn widths_are_told(rt: HostRuntime) {
    let alloc = rt.alloc();
    let none = "width 0\ntarget (p) width 0\ntarget (q) width 0\n";
    let cases = [
        ((CELLS, ONE_IS_FULL), "3", 0, CELLS_WIDTH),
        ((FOUR, NOTHING_OF_BOTH), "8", 0, FOUR_WIDTH),
        ((FOUR, NOTHING_OF_BOTH), "1", 1, "over 1\ntarget (g)\n"),
        ((FOUR, NOTHING_OF_BOTH), "0", 1, "over 0\ntarget (g)\n"),
        ((DOMAIN, PROBLEM), "0", 0, none),
    ];
    for (texts, bound, number, printed) in cases {
        assert!(rt; is_so(tells(alloc, texts, bound, number, printed)));
    }
}

// Two files that are refused, and words that are no bound.
#[test]
fn widths_are_refused(rt: HostRuntime) {
    let alloc = rt.alloc();
    let clash = "refused 13 Clash\naction (left)\natom (x2)\nadd (x3)\ndelete (x2)\n";
    let cases = [
        ((CELLS, SOME_ARE_FULL), "3", 3, clash),
        ((CELLS, ONE_IS_FULL), "03", 2, USAGE),
        ((CELLS, ONE_IS_FULL), "9", 2, USAGE),
    ];
    for (texts, bound, number, printed) in cases {
        assert!(rt; is_so(tells(alloc, texts, bound, number, printed)));
    }
}

// Where no bound is said, it is 3.
#[test]
fn the_usual_bound(rt: HostRuntime) -> Result<(), Fail> {
    let alloc = rt.alloc();
    let said = ["width", "d", "p"];
    assert!(rt;
        says_so(
            alloc,
            (FOUR, NOTHING_OF_BOTH),
            said.as_slice(),
            0,
            FOUR_WIDTH
        )?
    );
    Ok(())
}
