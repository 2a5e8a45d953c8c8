use crate::running::{is_so, says_so};

// An action over six cells, each the next of the one before.
const HOP: &str =
    "(define (domain n) (:types c) (:predicates (next ?x ?y - c) (at ?x - c)) (:action hop :parameters (?a ?b ?d ?e ?f ?g - c) :precondition (and (at ?a) (next ?a ?b) (next ?b ?d) (next ?d ?e) (next ?e ?f) (next ?f ?g)) :effect (and (not (at ?a)) (at ?g))))";

// Forty cells in a row.
const FORTY_CELLS: &str =
    "(define (problem n) (:domain n) (:objects c1 c2 c3 c4 c5 c6 c7 c8 c9 c10 c11 c12 c13 c14 c15 c16 c17 c18 c19 c20 c21 c22 c23 c24 c25 c26 c27 c28 c29 c30 c31 c32 c33 c34 c35 c36 c37 c38 c39 c40 - c) (:init (at c1) (next c1 c2) (next c2 c3) (next c3 c4) (next c4 c5) (next c5 c6) (next c6 c7) (next c7 c8) (next c8 c9) (next c9 c10) (next c10 c11) (next c11 c12) (next c12 c13) (next c13 c14) (next c14 c15) (next c15 c16) (next c16 c17) (next c17 c18) (next c18 c19) (next c19 c20) (next c20 c21) (next c21 c22) (next c22 c23) (next c23 c24) (next c24 c25) (next c25 c26) (next c26 c27) (next c27 c28) (next c28 c29) (next c29 c30) (next c30 c31) (next c31 c32) (next c32 c33) (next c33 c34) (next c34 c35) (next c35 c36) (next c36 c37) (next c37 c38) (next c38 c39) (next c39 c40)) (:goal (at c36)))";

const PLAN: &str =
    "(hop c1 c2 c3 c4 c5 c6)\n(hop c6 c7 c8 c9 c10 c11)\n(hop c11 c12 c13 c14 c15 c16)\n(hop c16 c17 c18 c19 c20 c21)\n(hop c21 c22 c23 c24 c25 c26)\n(hop c26 c27 c28 c29 c30 c31)\n(hop c31 c32 c33 c34 c35 c36)\n";

// 4,096,000,000 lists of objects, and 226 partial bindings.
#[test]
fn hops_are_translated_and_solved(rt: HostRuntime) {
    let alloc = rt.alloc();
    let texts = (HOP, FORTY_CELLS);
    let counts = "atoms 40\nactions 35\ntags 1\nmerges 0\nfacts 80\ncomplete\n";
    assert!(rt;
        is_so(says_so(
            alloc,
            texts,
            &["translate", "d", "p", "od", "op"],
            0,
            counts
        ))
    );
    assert!(rt; is_so(says_so(alloc, texts, &["solve", "d", "p"], 0, PLAN)));
}
