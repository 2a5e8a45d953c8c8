use crate::limits::{Limit, limit_in};
use crate::reading::numbers;
use kp_base::{Limits, Memory, Row, Stop, Text};
use kp_ground_instances::{Statics, all_bindings};
use kp_ground_joins::kept_instances;
use kp_names::{Cond, Eff, Lifted, Schema};
use kp_names_semantics::Range;
use std::alloc::Global;
use std::test::Fail;

// Two ranges, each of the objects 4 and 7.
fn two_ranges(alloc: Global) -> Result<Row<Range>, Memory> {
    let mut ranges = Row::new(alloc);
    for _ in 0..2 {
        ranges.push(Range {
            objects: numbers(alloc, &[4, 7])?,
        })?;
    }
    Ok(ranges)
}

// Whether these are the lists, in order.
fn are_lists(lists: &[Row<u32>], wanted: &[(u32, u32)]) -> bool {
    lists.len() == wanted.len()
        && lists
            .iter()
            .zip(wanted)
            .all(|(list, pair)| list.slice() == [pair.0, pair.1].as_slice())
}

fn has_all_lists(alloc: Global, ranges: &[Range]) -> Result<bool, Memory> {
    let lists = all_bindings(alloc, ranges)?;
    Ok(are_lists(lists.slice(), &[(4, 4), (4, 7), (7, 4), (7, 7)]))
}

#[test]
fn all_lists_of_objects(rt: HostRuntime) -> Result<(), Fail> {
    let alloc = rt.alloc();
    let ranges = two_ranges(alloc)?;
    let has_all = has_all_lists(alloc, ranges.slice());
    drop(ranges);
    assert!(rt; has_all?);
    Ok(())
}

// An action that does nothing.
fn idle_schema(alloc: Global) -> Schema {
    Schema {
        name: Text::new(alloc),
        params: Row::new(alloc),
        pre: Cond::All(Row::new(alloc)),
        effect: Eff::All(Row::new(alloc)),
    }
}

// A problem with that action.
fn idle(alloc: Global) -> Result<Lifted, Memory> {
    let mut schemas = Row::new(alloc);
    schemas.push(idle_schema(alloc))?;
    Ok(Lifted {
        objects: Row::new(alloc),
        predicates: Row::new(alloc),
        schemas,
        init: Row::new(alloc),
        goal: Row::new(alloc),
        unsure: None,
    })
}

// How many instances there are within limits.
fn kept_within(alloc: Global, lifted: &Lifted, limits: &Limits) -> Result<usize, Stop> {
    let statics = Statics::of(alloc, lifted)?;
    let kept = kept_instances(alloc, &statics, limits);
    drop(statics);
    Ok(kept?.len())
}

fn idle_within(alloc: Global, bindings: u64, actions: u32, weight: u64) -> Result<usize, Stop> {
    let limits = Limits {
        bindings,
        actions,
        weight,
        ..Limits::usual()
    };
    let lifted = idle(alloc)?;
    let kept = kept_within(alloc, &lifted, &limits);
    drop(lifted);
    kept
}

// Whether the instance of the idle action is kept within these limits.
fn keeps_one(alloc: Global, bindings: u64, actions: u32, weight: u64) -> bool {
    matches!(idle_within(alloc, bindings, actions, weight), Ok(1))
}

// Whether it is refused for this limit.
fn refuses(alloc: Global, bindings: u64, actions: u32, weight: u64, limit: Limit) -> bool {
    matches!(&idle_within(alloc, bindings, actions, weight), Err(Stop::Refused(found)) if limit_in(found) == Some(limit))
}

#[test]
fn each_limit_refuses(rt: HostRuntime) {
    let alloc = rt.alloc();
    assert!(rt; keeps_one(alloc, 1, 1, 1));
    assert!(rt; refuses(alloc, 0, 1, 1, Limit::Bindings));
    assert!(rt; refuses(alloc, 1, 0, 1, Limit::Actions));
    assert!(rt; refuses(alloc, 1, 1, 0, Limit::Weight));
}
