//! What the steps of a plan of the written files come to.

use kp_base::{Part, Place, Refused, Row, Stop};
use kp_plans::{plan_text, read_plan, strip};
use std::alloc::Global;

// The text of what the steps of a plan file come to.
fn stripped(alloc: Global, plan: &str) -> Result<Row<u8>, Stop> {
    if plan.len() > 1000 {
        return Err(Stop::Memory);
    }
    let steps = read_plan(alloc, plan.as_bytes())?;
    let actions = strip(alloc, &steps);
    drop(steps);
    let actions = actions?;
    Ok(plan_text(alloc, &actions)?)
}

// Whether a plan file comes to this text.
fn comes_to(alloc: Global, plan: &str, text: &str) -> bool {
    match stripped(alloc, plan) {
        Ok(found) => found.slice() == text.as_bytes(),
        Err(_) => false,
    }
}

// Whether a plan file is refused at this place.
fn is_refused_at(alloc: Global, plan: &str, place: Place) -> bool {
    match stripped(alloc, plan) {
        Err(Stop::Refused(Refused::PlanSyntax(found))) => found == place,
        _ => false,
    }
}

#[test]
fn plans_of_operators(rt: HostRuntime) {
    let table = [
        ("", ""),
        ("(do_-left)\n(do_-left)\n(merge_-0)\n", "(left)\n(left)\n"),
        ("(do_-go__to_-a__1)(merge_-0)", "(go_to a_1)\n"),
        ("(DO_-Left)(Merge_-10);(a)", "(left)\n"),
        ("(merge_-4095)", ""),
    ];
    for (plan, text) in table {
        assert!(rt; comes_to(rt.alloc(), plan, text), "{plan}");
    }
}

// The first step that is no operator's is refused at its name; a file that is no plan is refused at its token.
#[test]
fn other_steps(rt: HostRuntime) {
    let table = [
        ("(go_to)", 1, 1),
        ("(do_-a)\n\n(do_-a_b)(do_-)", 3, 10),
        ("(do_-)", 1, 1),
        ("(do_-a_)", 1, 1),
        ("(do_-a_-_-b)", 1, 1),
        ("(do_-a b)", 1, 1),
        ("(merge_-0 a)", 1, 1),
        ("(merge_-01)", 1, 1),
        ("(merge_-)", 1, 1),
        ("(merge_-1a)", 1, 1),
        ("; DO\n(DO_-A)\n(DO-A)", 3, 14),
        ("(a)(do_-a", 1, 9),
    ];
    for (plan, line, byte) in table {
        let place = Place {
            part: Part::Plan,
            line,
            byte,
        };
        assert!(rt; is_refused_at(rt.alloc(), plan, place), "{plan}");
    }
}
