//! The actions that the steps of a plan name.
ghost use Rattle.std.specs.Prelude.{◌≡◌, IfOk, length};

use kp_base::{Action, Atoms, Ground, GroundName, LitSet, Memory, Refused, Row, Stop, Text};
use kp_plans::{find_steps, read_plan};
use std::alloc::Global;

// A name without objects.
fn name(alloc: Global, head: &str) -> Result<GroundName, Memory> {
    Ok(GroundName {
        head: Text::from_slice(alloc, head.as_bytes())?,
        objects: Row::new(alloc),
    })
}

// An action that does nothing.
fn action(alloc: Global, head: &str) -> Result<Action, Memory> {
    Ok(Action {
        name: name(alloc, head)?,
        pre: LitSet::new(alloc),
        effects: Row::new(alloc),
    })
}

// A ground problem with these two actions.
fn two_actions(alloc: Global, first: &str, second: &str) -> Result<Ground, Memory>
    ensures { IfOk result (λ form. length form.actions ≡ 2) }
{
    let mut actions = Row::new(alloc);
    actions.push(action(alloc, first)?)?;
    actions.push(action(alloc, second)?)?;
    Ok(Ground {
        atoms: Row::new(alloc),
        table: Atoms::new(alloc),
        actions,
        goal: LitSet::new(alloc),
    })
}

// The numbers of the actions that a plan file names, of two actions.
fn found(alloc: Global, actions: (&str, &str), plan: &str) -> Result<Row<u32>, Stop> {
    if plan.len() > 1000 {
        return Err(Stop::Memory);
    }
    let steps = read_plan(alloc, plan.as_bytes())?;
    if steps.len() > 1000 {
        return Err(Stop::Memory);
    }
    let form = two_actions(alloc, actions.0, actions.1)?;
    let found = find_steps(alloc, &form, &steps);
    drop(form);
    drop(steps);
    found
}

// Whether these are the numbers.
fn finds(alloc: Global, actions: (&str, &str), plan: &str, numbers: &[u32]) -> bool {
    match found(alloc, actions, plan) {
        Ok(row) => row.slice() == numbers,
        Err(_) => false,
    }
}

// Whether the step of this number is told as unknown.
fn is_unknown(alloc: Global, plan: &str, number: u32) -> bool {
    match found(alloc, ("a", "b"), plan) {
        Err(Stop::Refused(Refused::StepUnknown { step })) => step == number,
        _ => false,
    }
}

#[test]
fn steps_with_a_number(rt: HostRuntime) {
    assert!(rt; finds(rt.alloc(), ("a", "b"), "(b)(a)(B)", &[1, 0, 1]));
    assert!(rt; finds(rt.alloc(), ("a", "a"), "(a)", &[0]));
    assert!(rt; finds(rt.alloc(), ("a", "b"), "", &[]));
}

#[test]
fn steps_with_none(rt: HostRuntime) {
    for (plan, number) in [("(c)", 1), ("(a)(b)(a b)(c)", 3)] {
        assert!(rt; is_unknown(rt.alloc(), plan, number), "{plan}");
    }
}
