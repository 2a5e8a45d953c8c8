use crate::limits::{Limit, limit_in, limits_of, tells};
use crate::reading::{numbers, resolved};
use kp_base::{Action, Ground, Limits, Memory, Refused, Row, Stop, Text};
use kp_ground::ground;
use kp_names::{Cond, Eff, Lifted, Schema};
use kp_names_semantics::Range;
use std::alloc::Global;
use std::test::Fail;

// An action over six cells, each the next of the one before.
const HOP: &str =
    "(define (domain n) (:types c) (:predicates (next ?x ?y - c) (at ?x - c)) (:action hop :parameters (?a ?b ?d ?e ?f ?g - c) :precondition (and (at ?a) (next ?a ?b) (next ?b ?d) (next ?d ?e) (next ?e ?f) (next ?f ?g)) :effect (and (not (at ?a)) (at ?g))))";

// Forty cells in a row.
const FORTY_CELLS: &str =
    "(define (problem n) (:domain n) (:objects c1 c2 c3 c4 c5 c6 c7 c8 c9 c10 c11 c12 c13 c14 c15 c16 c17 c18 c19 c20 c21 c22 c23 c24 c25 c26 c27 c28 c29 c30 c31 c32 c33 c34 c35 c36 c37 c38 c39 c40 - c) (:init (at c1) (next c1 c2) (next c2 c3) (next c3 c4) (next c4 c5) (next c5 c6) (next c6 c7) (next c7 c8) (next c8 c9) (next c9 c10) (next c10 c11) (next c11 c12) (next c12 c13) (next c13 c14) (next c14 c15) (next c15 c16) (next c16 c17) (next c17 c18) (next c18 c19) (next c19 c20) (next c20 c21) (next c21 c22) (next c22 c23) (next c23 c24) (next c24 c25) (next c25 c26) (next c26 c27) (next c27 c28) (next c28 c29) (next c29 c30) (next c30 c31) (next c31 c32) (next c32 c33) (next c33 c34) (next c34 c35) (next c35 c36) (next c36 c37) (next c37 c38) (next c38 c39) (next c39 c40)) (:goal (at c36)))";

// Moves along roads, of which there are none; nothing has a type.
const ROADS: &str =
    "(define (domain r) (:predicates (road ?x ?y) (at ?x)) (:action go :parameters (?x ?y) :precondition (road ?x ?y) :effect (at ?y)))";

const NO_ROADS: &str =
    "(define (problem r) (:domain r) (:objects a b c d) (:init (at a)) (:goal (at a)))";

// An action with a parameter that has no object, and one over the same red cell three times.
const NOTHING: &str =
    "(define (domain z) (:types c e) (:predicates (r ?x) (q)) (:action none :parameters (?x ?y - c ?z - e) :effect (q)) (:action red :parameters (?x ?y ?z - c) :precondition (and (r ?x) (r ?y) (r ?z)) :effect (q)))";

const ONE_RED: &str =
    "(define (problem z) (:domain z) (:objects a b c - c) (:init (r b)) (:goal (q)))";

// Two different objects with one that isn't p, and an object three times.
const PAIRS: &str =
    "(define (domain s) (:predicates (p ?x) (q ?x)) (:action other :parameters (?x ?y ?z) :precondition (and (not (= ?x ?y)) (not (p ?z))) :effect (q ?x)) (:action itself :parameters (?x ?y ?z) :precondition (and (= ?x ?y) (= ?y ?z)) :effect (q ?x)))";

const TWO_THINGS: &str =
    "(define (problem s) (:domain s) (:objects a b) (:init (p a)) (:goal (q a)))";

// What a problem comes to with so many bindings.
fn grounded(alloc: Global, lifted: &Lifted, bindings: u64) -> Result<Ground, Stop> {
    let limits = Limits {
        bindings,
        ..Limits::usual()
    };
    ground(alloc, lifted, &limits)
}

// Whether there are so many actions with so many bindings.
fn has(alloc: Global, lifted: &Lifted, bindings: u64, actions: usize) -> bool {
    let answer = grounded(alloc, lifted, bindings);
    let is_so = matches!(&answer, Ok(ground) if ground.actions.len() == actions);
    drop(answer);
    is_so
}

fn is_over(refused: &Refused) -> bool {
    limit_in(refused) == Some(Limit::Bindings)
}

// Whether the limit of bindings is told.
fn refuses(alloc: Global, lifted: &Lifted, bindings: u64) -> bool {
    let answer = grounded(alloc, lifted, bindings);
    let is_so = matches!(&answer, Err(Stop::Refused(refused)) if is_over(refused));
    drop(answer);
    is_so
}

// Whether the least limit of bindings is this one, and there are so many actions with it.
fn is_least(alloc: Global, lifted: &Lifted, bindings: u64, actions: usize) -> bool {
    has(alloc, lifted, bindings, actions) && refuses(alloc, lifted, bindings.saturating_sub(1))
}

fn needs(alloc: Global, domain: &str, problem: &str, bindings: u64, actions: usize) -> bool {
    let lifted = resolved(alloc, domain, problem);
    let is_so = matches!(&lifted, Ok(lifted) if is_least(alloc, lifted, bindings, actions));
    drop(lifted);
    is_so
}

// 1, 40, 39, 38, 37, 36 and 35 partial bindings of 4,096,000,000 bindings.
#[test]
fn hops_are_joined(rt: HostRuntime) {
    assert!(rt; needs(rt.alloc(), HOP, FORTY_CELLS, 226, 35));
}

// 1 and 4 of 16; where there is no road no action is left.
#[test]
fn a_static_predicate_that_nothing_states(rt: HostRuntime) {
    assert!(rt; needs(rt.alloc(), ROADS, NO_ROADS, 5, 0));
}

// 1, 3 and 9 of the first, whose last parameter has no object; 1, 1, 1 and 1 of the second, of 27.
#[test]
fn a_range_without_objects_counts(rt: HostRuntime) {
    assert!(rt; needs(rt.alloc(), NOTHING, ONE_RED, 17, 1));
}

// Of each action 1, 2, 2 and 2 of 8.
#[test]
fn equalities_are_tested_once_both_sides_are_bound(rt: HostRuntime) {
    assert!(rt; needs(rt.alloc(), PAIRS, TWO_THINGS, 14, 4));
}

// Whether the limits come in their order: bindings, actions, weight.
fn are_in_order(alloc: Global, lifted: &Lifted) -> bool {
    let cases = [
        (226, 34, 280, Limit::Actions),
        (226, 35, 279, Limit::Weight),
        (225, 34, 279, Limit::Bindings),
        (226, 34, 279, Limit::Actions),
    ];
    for (bindings, actions, weight, limit) in cases {
        if !tells(alloc, lifted, &limits_of(bindings, actions, weight), limit) {
            return false;
        }
    }
    matches!(&ground(alloc, lifted, &limits_of(226, 35, 280)), Ok(ground) if ground.actions.len() == 35)
}

// Each of the 35 hops weighs eight: six for its precondition, and two for its effects.
#[test]
fn other_limits_behind_joins(rt: HostRuntime) {
    let alloc = rt.alloc();
    let lifted = resolved(alloc, HOP, FORTY_CELLS);
    let are_in_order = matches!(&lifted, Ok(lifted) if are_in_order(alloc, lifted));
    drop(lifted);
    assert!(rt; are_in_order);
}

// Whether these are the names of an action's objects.
fn has_objects(action: &Action, names: &[&str]) -> bool {
    let objects = action.name.objects.slice();
    objects.len() == names.len()
        && objects
            .iter()
            .zip(names)
            .all(|(text, name)| text.slice() == name.as_bytes())
}

fn begins_with(ground: &Ground, first: &[&str], second: &[&str]) -> bool {
    let actions = ground.actions.slice();
    matches!(actions.first(), Some(action) if has_objects(action, first))
        && matches!(actions.get(1), Some(action) if has_objects(action, second))
}

// The first parameter is slowest, though the last has one object alone.
#[test]
fn joined_actions_are_in_order(rt: HostRuntime) {
    let alloc = rt.alloc();
    let lifted = resolved(alloc, PAIRS, TWO_THINGS);
    let grounded = match &lifted {
        Ok(lifted) => grounded(alloc, lifted, 14),
        Err(_) => Err(Stop::Memory),
    };
    let is_so =
        matches!(&grounded, Ok(ground) if ground.actions.len() == 4 && begins_with(ground, &["a", "b", "b"], &["b", "a", "b"]));
    drop(grounded);
    drop(lifted);
    assert!(rt; is_so);
}

fn many_ranges(alloc: Global, count: u32) -> Result<Row<Range>, Memory> {
    let mut ranges = Row::new(alloc);
    for _ in 0..count {
        ranges.push(Range {
            objects: numbers(alloc, &[0])?,
        })?;
    }
    Ok(ranges)
}

fn many_parameters(alloc: Global, count: u32) -> Result<Schema, Memory> {
    Ok(Schema {
        name: Text::new(alloc),
        params: many_ranges(alloc, count)?,
        pre: Cond::All(Row::new(alloc)),
        effect: Eff::All(Row::new(alloc)),
    })
}

// A problem with one object, and one action with so many parameters.
fn of_parameters(alloc: Global, count: u32) -> Result<Lifted, Memory> {
    let mut schemas = Row::new(alloc);
    schemas.push(many_parameters(alloc, count)?)?;
    let mut objects = Row::new(alloc);
    objects.push(Text::new(alloc))?;
    Ok(Lifted {
        objects,
        predicates: Row::new(alloc),
        schemas,
        init: Row::new(alloc),
        goal: Row::new(alloc),
        unsure: None,
    })
}

// 100,000 parameters of one object: 100,001 partial bindings, and one binding.
#[test]
fn many_parameters_of_one_object(rt: HostRuntime) -> Result<(), Fail> {
    let lifted = of_parameters(rt.alloc(), 100_000)?;
    let has_one = has(rt.alloc(), &lifted, 1, 1);
    drop(lifted);
    assert!(rt; has_one);
    Ok(())
}
