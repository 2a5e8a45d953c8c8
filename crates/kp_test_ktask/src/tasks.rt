//! Tasks: their limits, and runs of their operators.
ghost use Rattle.std.specs.Prelude.{◌≡◌};
ghost use Rattle.kp_classic.specs.Fits.{are_below};

use crate::given::{cells, tag_for_each};
use kp_base::{Limits, Memory, Refused, Row, Stop};
use kp_classic::{Task, is_fit, meets, run_ops};
use kp_ktask::{literal_of, translate};
use kp_test_problems::is_literal;
use std::alloc::Global;
use std::test::Fail;

fn limited(alloc: Global, facts: u32, task_weight: u64) -> Result<Task, Stop> {
    let ground = cells(alloc)?;
    let table = tag_for_each(alloc)?;
    let mut limits = Limits::usual();
    limits.facts = facts;
    limits.task_weight = task_weight;
    let task = translate(alloc, &ground, &table, &limits);
    drop(table);
    drop(ground);
    task
}

fn fits(alloc: Global, facts: u32, task_weight: u64) -> bool {
    match limited(alloc, facts, task_weight) {
        Ok(task) => task.facts.len() == 24,
        Err(_) => false,
    }
}

fn has_too_many_facts(alloc: Global, facts: u32, task_weight: u64) -> bool {
    let task = limited(alloc, facts, task_weight);
    let is_over = matches!(&task, Err(Stop::Refused(Refused::FactsOver)));
    drop(task);
    is_over
}

fn is_too_heavy(alloc: Global, facts: u32, task_weight: u64) -> bool {
    let task = limited(alloc, facts, task_weight);
    let is_over = matches!(&task, Err(Stop::Refused(Refused::WeightOver)));
    drop(task);
    is_over
}

// 24 facts, and a weight of 68: four for the merge, and for each of four tags two for each of eight effects.
#[test]
fn at_the_limits(rt: HostRuntime) -> Result<(), Fail> {
    assert!(rt; fits(rt.alloc(), 24, 68));
    assert!(rt; has_too_many_facts(rt.alloc(), 23, 67));
    assert!(rt; is_too_heavy(rt.alloc(), 24, 67));
    Ok(())
}

fn are_below(numbers: &[u32], count: u32) -> bool
    ensures { result ≡ are_below count numbers.now }
{
    numbers.iter().all(|number| *number < count)
}

// Whether the operators run, and meet the goal; none where one may not be taken.
fn reaches(alloc: Global, task: &Task, ops: &Row<u32>) -> Result<Option<bool>, Memory> {
    if !is_fit(task) {
        return Err(Memory);
    }
    if !are_below(ops.slice(), task.ops.len() as u32) {
        return Err(Memory);
    }
    match run_ops(alloc, task, ops)? {
        Some(state) => Ok(Some(meets(task, &state))),
        None => Ok(None),
    }
}

fn goes(alloc: Global, steps: &[u32]) -> Result<Option<bool>, Stop> {
    let task = limited(alloc, 24, 68)?;
    let mut ops = Row::new(alloc);
    for step in steps {
        ops.push(*step)?;
    }
    let reached = reaches(alloc, &task, &ops);
    drop(ops);
    drop(task);
    Ok(reached?)
}

// Whether the operators come to this.
fn come_to(alloc: Global, steps: &[u32], wanted: Option<bool>) -> bool {
    let end = goes(alloc, steps);
    let is_wanted = matches!(&end, Ok(found) if *found == wanted);
    drop(end);
    is_wanted
}

// Two steps to the left and the merge lead to the goal, one step doesn't, and the merge can't be first.
#[test]
fn two_steps_and_the_merge(rt: HostRuntime) -> Result<(), Fail> {
    assert!(rt; come_to(rt.alloc(), &[0, 0, 1], Some(true)));
    assert!(rt; come_to(rt.alloc(), &[0, 0], Some(false)));
    assert!(rt; come_to(rt.alloc(), &[1], None));
    Ok(())
}

// Facts 6 to 11 are of the second tag.
#[test]
fn literals_of_facts(rt: HostRuntime) -> Result<(), Fail> {
    assert!(rt; is_literal(literal_of(3, 0), (0, true)));
    assert!(rt; is_literal(literal_of(3, 11), (2, false)));
    Ok(())
}
