//! Plan files: the names of their steps, the places of these, and refusals.

use kp_base::{GroundName, Memory, Part, Place, Refused, Row, Stop};
use kp_plans::{PlanStep, plan_text, read_plan};
use std::alloc::Global;

// The place of a byte of a plan file.
fn at(line: u32, byte: u32) -> Place {
    Place {
        part: Part::Plan,
        line,
        byte,
    }
}

// The steps of a plan file that isn't long.
fn read(alloc: Global, plan: &[u8]) -> Result<Row<PlanStep>, Stop> {
    if plan.len() > 1000 {
        return Err(Stop::Memory);
    }
    read_plan(alloc, plan)
}

fn names(alloc: Global, steps: Row<PlanStep>) -> Result<Row<GroundName>, Memory> {
    let mut names = Row::new(alloc);
    for step in steps.into_vec() {
        names.push(step.name)?;
    }
    Ok(names)
}

// The steps of a plan file as they are printed.
fn printed(alloc: Global, plan: &[u8]) -> Result<Row<u8>, Stop> {
    let steps = read(alloc, plan)?;
    let names = names(alloc, steps)?;
    Ok(plan_text(alloc, &names)?)
}

// Whether the steps of a plan file are printed so.
fn prints(alloc: Global, plan: &[u8], text: &str) -> bool {
    match printed(alloc, plan) {
        Ok(found) => found.slice() == text.as_bytes(),
        Err(_) => false,
    }
}

fn are_at(steps: &[PlanStep], places: &[(u32, u32)]) -> bool {
    steps.len() == places.len()
        && steps
            .iter()
            .zip(places)
            .all(|(step, (line, byte))| step.place == at(*line, *byte))
}

// Whether the names of the steps stand in these lines, at these bytes.
fn stand_at(alloc: Global, plan: &[u8], places: &[(u32, u32)]) -> bool {
    match read(alloc, plan) {
        Ok(steps) => are_at(steps.slice(), places),
        Err(_) => false,
    }
}

// Whether a plan file is refused for its grammar here.
fn refuses(alloc: Global, plan: &[u8], place: Place) -> bool {
    matches!(read(alloc, plan), Err(Stop::Refused(Refused::PlanSyntax(found))) if found == place)
}

// Whether a plan file is refused for a byte here, which begins no token.
fn has_bad_byte(alloc: Global, plan: &[u8], place: Place) -> bool {
    matches!(read(alloc, plan), Err(Stop::Refused(Refused::BadToken(found))) if found == place)
}

// Files with no line feed at their end, in upper case, with comments and with other blanks.
#[test]
fn plans(rt: HostRuntime) {
    let table: [(&[u8], &str, &[(u32, u32)]); 7] = [
        (b"", "", &[]),
        (b" \t\r\n", "", &[]),
        (b"; (a)", "", &[]),
        (b"(a)", "(a)\n", &[(1, 1)]),
        (b"(GO-To A_1 b)\n", "(go-to a_1 b)\n", &[(1, 1)]),
        (
            b"; \xff?(\r\n( a;b)\n c\n)(and)\n\n;(d)\n(not 1)",
            "(a c)\n(and)\n(not 1)\n",
            &[(2, 9), (4, 19), (7, 31)],
        ),
        (b"(a)(a)", "(a)\n(a)\n", &[(1, 1), (1, 4)]),
    ];
    for (plan, text, places) in table {
        assert!(rt; prints(rt.alloc(), plan, text), "{text}");
        assert!(rt; stand_at(rt.alloc(), plan, places), "{text}");
    }
}

// The grammar stops at another token, or at the end.
#[test]
fn offending_tokens(rt: HostRuntime) {
    let table = [
        ("a", 1, 0),
        ("(a", 1, 2),
        ("(a b\n", 2, 5),
        ("(", 1, 1),
        ("()", 1, 1),
        ("((a))", 1, 1),
        ("(?x)", 1, 1),
        ("(:a)", 1, 1),
        ("(a ?x)", 1, 3),
        ("(a - b)", 1, 3),
        ("(a (b))", 1, 3),
        ("(a))", 1, 3),
        ("(a)\n; (\n 1", 3, 9),
    ];
    for (plan, line, byte) in table {
        assert!(rt;
            refuses(rt.alloc(), plan.as_bytes(), at(line, byte)),
            "{plan}"
        );
    }
}

// A byte that begins no token is told before any token.
#[test]
fn bad_bytes(rt: HostRuntime) {
    let table = [
        ("0: (a)", 1, 1),
        ("(a) [1]", 1, 4),
        ("()\n\n(a ?)", 3, 7),
        ("(_a)", 1, 1),
    ];
    for (plan, line, byte) in table {
        assert!(rt;
            has_bad_byte(rt.alloc(), plan.as_bytes(), at(line, byte)),
            "{plan}"
        );
    }
}
