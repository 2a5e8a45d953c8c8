//! Steps and runs.
ghost use Rattle.std.specs.Prelude.{◌≡◌};
ghost use Rattle.kp_classic.specs.Fits.{are_below};

use crate::given::{cells, row};
use kp_base::{Memory, Row};
use kp_classic::{Task, is_fit, meets, run_ops};
use std::alloc::Global;
use std::test::Fail;

fn are_below(numbers: &[u32], count: u32) -> bool
    ensures { result ≡ are_below count numbers.now }
{
    numbers.iter().all(|number| *number < count)
}

/// Whether the operators run, and meet the goal; none where one may not be taken.
pub(crate) fn reaches(alloc: Global, task: &Task, ops: &Row<u32>) -> Result<Option<bool>, Memory> {
    if !is_fit(task) {
        return Err(Memory);
    }
    if !are_below(ops.slice(), task.ops.len() as u32) {
        return Err(Memory);
    }
    match run_ops(alloc, task, ops)? {
        Some(state) => Ok(Some(meets(task, &state))),
        None => Ok(None),
    }
}

// The same of so many steps to the left.
fn goes(
    alloc: Global,
    init: &[u32],
    steps: &[u32],
    yes: &[u32],
    no: &[u32],
) -> Result<Option<bool>, Memory> {
    let task = cells(alloc, init, yes, no)?;
    let ops = row(alloc, steps)?;
    let reached = reaches(alloc, &task, &ops);
    drop(ops);
    drop(task);
    reached
}

// What is in the third cell is in the first after two steps, and nowhere else.
#[test]
fn two_steps_to_the_left(rt: HostRuntime) -> Result<(), Fail> {
    assert!(rt;
        matches!(
            goes(rt.alloc(), &[2], &[0, 0], &[0], &[1, 2]),
            Ok(Some(true))
        )
    );
    assert!(rt; matches!(goes(rt.alloc(), &[2], &[0], &[1], &[0, 2]), Ok(Some(true))));
    assert!(rt; matches!(goes(rt.alloc(), &[2], &[0], &[0], &[]), Ok(Some(false))));
    Ok(())
}

// With the second and the third cell full, the second is left and entered in one step, and stays full.
#[test]
fn an_add_wins_over_a_delete(rt: HostRuntime) -> Result<(), Fail> {
    assert!(rt;
        matches!(
            goes(rt.alloc(), &[1, 2], &[0], &[0, 1], &[2]),
            Ok(Some(true))
        )
    );
    Ok(())
}

// A third step may not be taken once the first cell is full.
#[test]
fn a_run_ends_at_what_may_not_be_taken(rt: HostRuntime) -> Result<(), Fail> {
    assert!(rt; matches!(goes(rt.alloc(), &[2], &[0, 0, 0], &[], &[]), Ok(None)));
    assert!(rt; matches!(goes(rt.alloc(), &[0], &[0], &[], &[]), Ok(None)));
    assert!(rt; matches!(goes(rt.alloc(), &[0], &[], &[0], &[1, 2]), Ok(Some(true))));
    Ok(())
}
