use crate::running::{USAGE, ends_so, is_so};
use kp_base::Memory;
use std::alloc::Global;

const DOMAIN: &str = "(define (domain g) (:predicates (a) (b) (c)))";

// `a or b` and `c unless a` have a third prime implicate, `b or c`.
const PROBLEM: &str =
    "(define (problem g) (:domain g) (:init (or (a) (b)) (or (not (a)) (c))) (:goal (a)))";

const ACCEPTED: &str = "atoms 3\nactions 0\ntags 1\nmerges 0\nfacts 6\ncomplete\n";

// Whether a translation with this limit ends with this number and prints this text.
fn limits_so(alloc: Global, limit: &str, number: u8, printed: &str) -> Result<bool, Memory> {
    let more = ["--implicates", limit];
    ends_so(alloc, (DOMAIN, PROBLEM), more.as_slice(), number, printed)
}

// Limits on prime implicates, and what is printed.
#[test]
fn limits_of_implicates(rt: HostRuntime) {
    let cases = [
        ("2", 3, "refused 11 ImplicatesOver\nprefix 2\n"),
        ("3", 0, ACCEPTED),
        ("100000", 0, ACCEPTED),
    ];
    for (limit, number, printed) in cases {
        assert!(rt; is_so(limits_so(rt.alloc(), limit, number, printed)));
    }
}

// Words that are no limit.
#[test]
fn no_limit_of_implicates(rt: HostRuntime) {
    for limit in ["100001", "0", "03", "+3", ""] {
        assert!(rt; is_so(limits_so(rt.alloc(), limit, 2, USAGE)));
    }
}
