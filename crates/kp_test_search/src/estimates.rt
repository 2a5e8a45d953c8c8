//! The estimate `added`.

use crate::given::{Step, task};
use kp_base::Memory;
use kp_classic::{Task, is_fit, start};
use kp_guide::added;
use std::alloc::Global;
use std::test::Fail;

/// The estimate of the task's start.
fn at_start(alloc: Global, task: &Task) -> Result<Option<u32>, Memory> {
    if !is_fit(task) {
        return Err(Memory);
    }
    let state = start(alloc, task)?;
    added(alloc, task, &state)
}

/// The estimate of a start, with these operators and this goal.
fn estimate(
    alloc: Global,
    count: u32,
    init: &[u32],
    steps: &[Step],
    goal: &[u32],
) -> Result<Option<u32>, Memory> {
    let task = task(alloc, count, init, steps, goal)?;
    let estimate = at_start(alloc, &task);
    drop(task);
    estimate
}

// One step to fact 0, and from there one to fact 1 and one to fact 2.
fn fork(alloc: Global, init: &[u32], goal: &[u32]) -> Result<Option<u32>, Memory> {
    estimate(
        alloc,
        3,
        init,
        &[
            (&[], &[(&[], 0, true)]),
            (&[0], &[(&[], 1, true)]),
            (&[0], &[(&[], 2, true)]),
        ],
        goal,
    )
}

// The shared first step counts for each of the two.
#[test]
fn facts_of_the_goal_are_summed(rt: HostRuntime) -> Result<(), Fail> {
    assert!(rt; matches!(fork(rt.alloc(), &[], &[1, 2]), Ok(Some(4))));
    assert!(rt; matches!(fork(rt.alloc(), &[], &[2, 1, 0]), Ok(Some(5))));
    assert!(rt; matches!(fork(rt.alloc(), &[0], &[1, 2]), Ok(Some(2))));
    Ok(())
}

#[test]
fn a_fact_of_the_goal_counts_once(rt: HostRuntime) -> Result<(), Fail> {
    assert!(rt; matches!(fork(rt.alloc(), &[], &[1, 1]), Ok(Some(2))));
    assert!(rt; matches!(fork(rt.alloc(), &[1], &[1]), Ok(Some(0))));
    assert!(rt; matches!(fork(rt.alloc(), &[], &[]), Ok(Some(0))));
    Ok(())
}

// Fact 0 is asked for by the operator and by its effect, fact 1 by the effect alone.
fn shared(alloc: Global, init: &[u32], goal: &[u32]) -> Result<Option<u32>, Memory> {
    estimate(
        alloc,
        4,
        init,
        &[
            (&[0], &[(&[1, 0, 1], 2, true), (&[3], 0, false)]),
            (&[], &[(&[], 0, true), (&[0], 1, true), (&[], 3, false)]),
        ],
        goal,
    )
}

// Facts 0 and 1 cost 1 and 2.
#[test]
fn a_need_counts_once(rt: HostRuntime) -> Result<(), Fail> {
    assert!(rt; matches!(shared(rt.alloc(), &[], &[2]), Ok(Some(4))));
    assert!(rt; matches!(shared(rt.alloc(), &[1], &[2]), Ok(Some(2))));
    Ok(())
}

// What is only deleted is out of reach.
#[test]
fn no_estimate_where_a_fact_is_out_of_reach(rt: HostRuntime) -> Result<(), Fail> {
    assert!(rt; matches!(shared(rt.alloc(), &[0, 1], &[2, 3]), Ok(None)));
    assert!(rt; matches!(shared(rt.alloc(), &[3], &[3]), Ok(Some(0))));
    Ok(())
}

// Fact 2 costs 4 by facts 0 and 1, which cost 1 and 2, and 3 by facts 4 and 5, each from the next; fact 3 needs fact 2.
#[test]
fn the_cheaper_way_counts(rt: HostRuntime) -> Result<(), Fail> {
    let least = estimate(
        rt.alloc(),
        6,
        &[],
        &[
            (&[], &[(&[], 0, true)]),
            (&[0], &[(&[], 1, true)]),
            (&[0, 1], &[(&[], 2, true)]),
            (&[2], &[(&[], 3, true)]),
            (&[4], &[(&[], 2, true)]),
            (&[5], &[(&[], 4, true)]),
            (&[], &[(&[], 5, true)]),
        ],
        &[3],
    );
    assert!(rt; matches!(least, Ok(Some(4))));
    Ok(())
}
