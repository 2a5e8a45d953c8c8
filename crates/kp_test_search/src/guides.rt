//! A guide that keeps a closure, and what is then known of its answers.
ghost use Rattle.std.specs.Prelude.{◌≡◌, length, IfOk};
ghost use Rattle.kp_classic.specs.Fits.{IsFit};
ghost use Rattle.kp_classic.specs.States.{has};
ghost use Rattle.kp_guide.specs.Added.{IsAdded};
ghost use Rattle.kp_search.specs.Ends.{Tells};

use crate::given::task;
use kp_base::Memory;
use kp_classic::{State, Task, is_fit, start};
use kp_guide::{Additive, Estimate, Estimator, Guide, added, added_is_right};
use kp_search::{Found, search};
use std::alloc::Global;
use std::test::Fail;

// The estimate `added`, by a guide that keeps a closure over it.
fn kept(alloc: Global, task: &Task, state: &State) -> Result<Option<u32>, Memory>
    requires fits { IsFit task.now }
    requires of_task { state.now.facts ≡ length task.now.facts }
    ensures { IfOk result (IsAdded task.now (has state.now.hold)) }
{
    added_is_right();
    let estimate: Estimate = Box::new(
        alloc,
        move |t: &Task, s: &State| -> Result<Option<u32>, Memory>
            requires fits { IsFit t.now }
            requires of_task { s.now.facts ≡ length t.now.facts }
            ensures { IfOk result (IsAdded t.now (has s.now.hold)) }
        { added(alloc, t, s) },
    )?;
    let guide = Guide::keep(estimate);
    guide.estimate(task, state)
}

// The search of a task by such a guide.
fn searched(alloc: Global, task: &Task, budget: u32) -> Result<Found, Memory>
    requires { IsFit task.now }
    ensures { IfOk result (Tells task.now budget) }
{
    added_is_right();
    let estimate: Estimate = Box::new(
        alloc,
        move |t: &Task, s: &State| -> Result<Option<u32>, Memory>
            requires fits { IsFit t.now }
            requires of_task { s.now.facts ≡ length t.now.facts }
            ensures { IfOk result (IsAdded t.now (has s.now.hold)) }
        { added(alloc, t, s) },
    )?;
    let guide = Guide::keep(estimate);
    let found = search(alloc, task, &guide, budget)?;
    Ok(found)
}

// Any estimator.
fn ask<E: Estimator>(estimator: &E, task: &Task, state: &State) -> Result<Option<u32>, Memory>
    requires fits { IsFit task.now }
    requires serves { E.serves estimator.now task.now }
    requires of_task { state.now.facts ≡ length task.now.facts }
    ensures { IfOk result (λ h. E.may_answer estimator.now task.now state.now h) }
{
    let answer = estimator.estimate(task, state)?;
    Ok(answer)
}

// The estimate `added`, by its own estimator.
fn own(alloc: Global, task: &Task, state: &State) -> Result<Option<u32>, Memory>
    requires fits { IsFit task.now }
    requires of_task { state.now.facts ≡ length task.now.facts }
    ensures { IfOk result (IsAdded task.now (has state.now.hold)) }
{
    let estimator = Additive::of(alloc, task)?;
    let answer = ask(&estimator, task, state)?;
    Ok(answer)
}

// Both estimates of a task's start.
fn both(alloc: Global, task: &Task) -> Result<(Option<u32>, Option<u32>), Memory> {
    if !is_fit(task) {
        return Err(Memory);
    }
    let state = start(alloc, task)?;
    Ok((kept(alloc, task, &state)?, own(alloc, task, &state)?))
}

// Three facts; fact 0 is added freely, and fact 1 where fact 0 holds.
fn chained(alloc: Global, goal: &[u32]) -> Result<Task, Memory> {
    task(
        alloc,
        3,
        &[],
        &[(&[], &[(&[], 0, true)]), (&[0], &[(&[], 1, true)])],
        goal,
    )
}

// Both estimates there.
fn chain(alloc: Global, goal: &[u32]) -> Result<(Option<u32>, Option<u32>), Memory> {
    let task = chained(alloc, goal)?;
    let answers = both(alloc, &task);
    drop(task);
    answers
}

// What the search by a guide finds there.
fn chain_searched(alloc: Global, goal: &[u32], budget: u32) -> Result<Found, Memory> {
    let task = chained(alloc, goal)?;
    if !is_fit(&task) {
        return Err(Memory);
    }
    let found = searched(alloc, &task, budget);
    drop(task);
    found
}

// Whether the search by a guide finds the two operators in turn, two states having been expanded.
fn finds_both(alloc: Global) -> bool {
    match chain_searched(alloc, &[1], 2) {
        Ok(Found::Plan { ops, expanded }) => ops.slice() == [0, 1].as_slice() && expanded == 2,
        _ => false,
    }
}

#[test]
fn guides_answer_the_estimate(rt: HostRuntime) -> Result<(), Fail> {
    assert!(rt; matches!(chain(rt.alloc(), &[1]), Ok((Some(2), Some(2)))));
    assert!(rt; matches!(chain(rt.alloc(), &[2]), Ok((None, None))));
    Ok(())
}

#[test]
fn guides_lead_a_search(rt: HostRuntime) -> Result<(), Fail> {
    assert!(rt; finds_both(rt.alloc()));
    assert!(rt;
        matches!(
            chain_searched(rt.alloc(), &[1], 1),
            Ok(Found::Spent { expanded: 1 })
        )
    );
    assert!(rt; matches!(chain_searched(rt.alloc(), &[2], 9), Ok(Found::NoPlan)));
    Ok(())
}
