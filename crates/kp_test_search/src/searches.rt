//! Searches by the estimate `added`.

use crate::given::{Step, task};
use kp_base::Memory;
use kp_classic::{Task, is_fit};
use kp_guide::Additive;
use kp_search::{Found, search};
use std::alloc::Global;
use std::test::Fail;

// The search of a task by the estimate `added`.
fn found(alloc: Global, task: &Task, budget: u32) -> Result<Found, Memory> {
    if !is_fit(task) {
        return Err(Memory);
    }
    let guide = Additive::of(alloc, task)?;
    search(alloc, task, &guide, budget)
}

// The search for these facts, with these operators and nothing at the start.
fn search_for(
    alloc: Global,
    count: u32,
    steps: &[Step],
    goal: &[u32],
    budget: u32,
) -> Result<Found, Memory> {
    let task = task(alloc, count, &[], steps, goal)?;
    let found = found(alloc, &task, budget);
    drop(task);
    found
}

// Whether it is this plan, with so many entries expanded.
fn is_plan(found: &Result<Found, Memory>, plan: &[u32], count: u32) -> bool {
    match found {
        Ok(Found::Plan { ops, expanded }) => ops.slice() == plan && *expanded == count,
        _ => false,
    }
}

// One step to fact 0, and from there one to fact 1 and one to fact 2; facts 1 and 2 are asked for.
fn fork(alloc: Global, budget: u32) -> Result<Found, Memory> {
    search_for(
        alloc,
        3,
        &[
            (&[], &[(&[], 0, true)]),
            (&[0], &[(&[], 1, true)]),
            (&[0], &[(&[], 2, true)]),
        ],
        &[1, 2],
        budget,
    )
}

// Of the two that are one step away the one that was entered first is taken.
#[test]
fn ties_by_number(rt: HostRuntime) -> Result<(), Fail> {
    let found = fork(rt.alloc(), 100);
    let right = is_plan(&found, &[0, 1, 2], 3);
    drop(found);
    assert!(rt; right);
    Ok(())
}

// The third entry is expanded where the budget is 3.
#[test]
fn the_budget_is_what_may_be_expanded(rt: HostRuntime) -> Result<(), Fail> {
    let found = fork(rt.alloc(), 3);
    let right = is_plan(&found, &[0, 1, 2], 3);
    drop(found);
    assert!(rt; right);
    assert!(rt; matches!(fork(rt.alloc(), 2), Ok(Found::Spent { expanded: 2 })));
    assert!(rt; matches!(fork(rt.alloc(), 0), Ok(Found::Spent { expanded: 0 })));
    Ok(())
}

// Operator 1 needs fact 0 and deletes it, and so each of the two facts of the goal costs the other.
fn swap(alloc: Global, budget: u32) -> Result<Found, Memory> {
    search_for(
        alloc,
        2,
        &[
            (&[], &[(&[], 0, true), (&[], 1, false)]),
            (&[0], &[(&[], 1, true), (&[], 0, false)]),
        ],
        &[0, 1],
        budget,
    )
}

// The three states that are reached are expanded, and there is no plan though each has an estimate.
#[test]
fn no_plan_once_all_states_are_expanded(rt: HostRuntime) -> Result<(), Fail> {
    assert!(rt; matches!(swap(rt.alloc(), 3), Ok(Found::NoPlan)));
    assert!(rt; matches!(swap(rt.alloc(), 2), Ok(Found::Spent { expanded: 2 })));
    Ok(())
}

// Fact 3 is added by no operator.
#[test]
fn no_plan_where_the_start_is_hopeless(rt: HostRuntime) -> Result<(), Fail> {
    let none = search_for(rt.alloc(), 4, &[(&[], &[(&[], 0, true)])], &[3], 0);
    assert!(rt; matches!(none, Ok(Found::NoPlan)));
    Ok(())
}

// The start meets the goal.
#[test]
fn nothing_to_do(rt: HostRuntime) -> Result<(), Fail> {
    let found = search_for(rt.alloc(), 1, &[(&[], &[(&[], 0, true)])], &[], 0);
    let right = is_plan(&found, &[], 0);
    drop(found);
    assert!(rt; right);
    Ok(())
}
