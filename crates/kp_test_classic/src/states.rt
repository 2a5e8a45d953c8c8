//! States.

use crate::given::{conds, names, row};
use kp_base::{Memory, Row};
use kp_classic::{Task, is_fit, start};
use std::alloc::Global;
use std::cmp::Ordering;
use std::test::Fail;

// A task of 130 facts without operators.
fn facts(alloc: Global, init: &[u32]) -> Result<Task, Memory> {
    let (facts, init) = (names(alloc, 130)?, row(alloc, init)?);
    let goal = conds(alloc, &[], &[])?;
    Ok(Task {
        facts,
        init,
        goal,
        ops: Row::new(alloc),
    })
}

fn in_order(alloc: Global, one: &Task, other: &Task) -> Result<Ordering, Memory> {
    if !is_fit(one) || !is_fit(other) || one.facts.len() != other.facts.len() {
        return Err(Memory);
    }
    let one = start(alloc, one)?;
    let other = start(alloc, other)?;
    Ok(one.order(&other))
}

fn ordered(alloc: Global, one: &[u32], other: &[u32]) -> Result<Ordering, Memory> {
    let one = facts(alloc, one)?;
    let other = facts(alloc, other)?;
    let order = in_order(alloc, &one, &other);
    drop(other);
    drop(one);
    order
}

// The first fact in which they differ decides, and who hasn't it is less.
#[test]
fn the_first_fact_decides(rt: HostRuntime) -> Result<(), Fail> {
    assert!(rt; matches!(ordered(rt.alloc(), &[1], &[0]), Ok(Ordering::Less)));
    assert!(rt;
        matches!(
            ordered(rt.alloc(), &[63, 64], &[65, 129, 64]),
            Ok(Ordering::Greater)
        )
    );
    assert!(rt;
        matches!(
            ordered(rt.alloc(), &[129, 64], &[64, 129, 129]),
            Ok(Ordering::Equal)
        )
    );
    Ok(())
}
