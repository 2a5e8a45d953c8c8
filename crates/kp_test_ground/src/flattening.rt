ghost use Rattle.std.specs.Prelude.{◌<◌, length};
ghost use Rattle.kp_names.specs.View.{lifted_view};

use crate::reading::{numbers, resolved};
use bumpalo::Bump;
use kp_base::{Memory, Row, Stop};
use kp_ground_flatten::{Flattener, bind, flatten};
use kp_ground_instances::Statics;
use kp_ground_semantics::Flat;
use kp_names::Lifted;
use std::alloc::Global;

const MOVES: &str =
    "(define (domain f) (:predicates (at ?x) (road ?x ?y) (lit ?x)) (:action move :parameters (?x ?y) :precondition (and (at ?x) (road ?x ?y)) :effect (and (not (at ?x)) (at ?y) (forall (?z) (when (and (not (= ?z ?x)) (at ?z) (at ?z)) (lit ?z))) (when (at ?y) (lit ?y)))))";

const ONE_ROAD: &str =
    "(define (problem f) (:domain f) (:objects a b) (:init (road a b)) (:goal (at b)))";

// Predicates, in the order of their declarations.
const AT: u32 = 0;

const LIT: u32 = 2;

// Whether there is one literal in the precondition, and the effects have so many conditions and these results.
fn tells(flat: &Flat, wanted: &[(usize, bool, u32, u32)]) -> bool {
    flat.pre.len() == 1
        && flat.effects.len() == wanted.len()
        && flat.effects.slice().iter().zip(wanted).all(|(effect, (count, positive, pred, object))| {
            effect.cond.len() == *count
                && effect.result.positive == *positive
                && effect.result.pred == *pred
                && effect.result.objects.slice() == [*object].as_slice()
        })
}

// The flat form of the move with these objects, by a table.
fn flat_by(alloc: Global, statics: &Statics, objects: &Row<u32>) -> Result<Flat, Memory>
    requires { 0 < length (lifted_view statics.now).schemas }
{
    let mut flattener = Flattener::new(alloc, statics);
    let flat = flattener.flat(alloc, 0, objects);
    drop(flattener);
    flat
}

// The flat form of the move with these objects.
fn flat_move(alloc: Global, lifted: &Lifted, objects: &Row<u32>) -> Result<Flat, Stop>
    requires { 0 < length (lifted_view lifted.now).schemas }
{
    let statics = Statics::of(alloc, lifted)?;
    let flat = flat_by(alloc, &statics, objects);
    drop(statics);
    Ok(flat?)
}

// The same, by the two steps.
fn flat_in(bump: &Bump, alloc: Global, lifted: &Lifted, objects: &Row<u32>) -> Result<Flat, Stop>
    requires { 0 < length (lifted_view lifted.now).schemas }
{
    let node = bind(bump, alloc, lifted, 0, objects)?;
    Ok(flatten(alloc, lifted, &node)?)
}

// Whether the move of these objects is flattened so.
fn is_flat(
    alloc: Global,
    lifted: &Lifted,
    objects: &[u32],
    wanted: &[(usize, bool, u32, u32)],
) -> Result<bool, Stop> {
    if lifted.schemas.len() != 1 {
        return Ok(false);
    }
    let objects = numbers(alloc, objects)?;
    let flat = flat_move(alloc, lifted, &objects);
    drop(objects);
    Ok(tells(&flat?, wanted))
}

// Whether the move of these two objects is flattened so.
fn moves_so(
    alloc: Global,
    first: u32,
    second: u32,
    wanted: &[(usize, bool, u32, u32)],
) -> Result<bool, Stop> {
    let lifted = resolved(alloc, MOVES, ONE_ROAD)?;
    let is_so = is_flat(alloc, &lifted, &[first, second], wanted);
    drop(lifted);
    is_so
}

// Whether the two steps give the same flat form, and the arena lets itself be reset.
fn steps_agree(alloc: Global, lifted: &Lifted, objects: &Row<u32>) -> Result<bool, Stop>
    requires { 0 < length (lifted_view lifted.now).schemas }
{
    let mut bump = Bump::new(alloc);
    let again = flat_in(&bump, alloc, lifted, objects);
    let is_reset = bump.reset().is_ok();
    drop(bump);
    let again = again?;
    Ok(is_reset && again == flat_move(alloc, lifted, objects)?)
}

fn moves_in_two_steps(alloc: Global) -> Result<bool, Stop> {
    let lifted = resolved(alloc, MOVES, ONE_ROAD)?;
    if lifted.schemas.len() != 1 {
        return Ok(false);
    }
    let objects = numbers(alloc, &[0, 0])?;
    steps_agree(alloc, &lifted, &objects)
}

// The repeated effect is left out, and so is the one under a false equality.
#[test]
fn a_repeated_effect_is_left_out(rt: HostRuntime) {
    let wanted = [(0, false, AT, 0), (0, true, AT, 1), (2, true, LIT, 1)];
    let is_so = moves_so(rt.alloc(), 0, 1, &wanted);
    assert!(rt; matches!(is_so, Ok(true)));
}

#[test]
fn effects_of_other_conditions_stay(rt: HostRuntime) {
    let wanted = [
        (0, false, AT, 0),
        (0, true, AT, 0),
        (2, true, LIT, 1),
        (1, true, LIT, 0),
    ];
    let is_so = moves_so(rt.alloc(), 0, 0, &wanted);
    assert!(rt; matches!(is_so, Ok(true)));
}

#[test]
fn two_steps_flatten_alike(rt: HostRuntime) {
    let agree = moves_in_two_steps(rt.alloc());
    assert!(rt; matches!(agree, Ok(true)));
}
