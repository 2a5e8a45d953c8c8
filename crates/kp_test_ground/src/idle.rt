use crate::reading::resolved;
use kp_base::{AtomId, Effect, Ground, Limits, Lit, Stop};
use kp_ground::ground;
use std::alloc::Global;

const ADD_AND_DELETE: &str =
    "(define (domain i) (:predicates (p) (q)) (:action a :effect (and (when (p) (q)) (not (q)))))";

const P_HOLDS: &str = "(define (problem i) (:domain i) (:init (p)) (:goal (q)))";

const Q: Lit = Lit {
    atom: AtomId(0),
    positive: true,
};

fn ground_of(alloc: Global) -> Result<Ground, Stop> {
    let lifted = resolved(alloc, ADD_AND_DELETE, P_HOLDS)?;
    let ground = ground(alloc, &lifted, &Limits::usual());
    drop(lifted);
    ground
}

// Whether q is the one atom, and the goal.
fn has_one_atom(ground: &Ground) -> bool {
    ground.atoms.len() == 1
        && ground.atoms.at(0).head.slice() == b"q".as_slice()
        && ground.goal.slice() == [Q].as_slice()
}

// Whether there is one effect, which adds q under no condition.
fn adds_alone(effects: &[Effect]) -> bool {
    effects.len() == 1 && effects[0].result == Q && effects[0].cond.slice().is_empty()
}

fn has_one_add(ground: &Ground) -> bool {
    ground.actions.len() == 1 && adds_alone(ground.actions.at(0).effects.slice())
}

fn is_left_out(alloc: Global) -> Result<bool, Stop> {
    let ground = ground_of(alloc)?;
    Ok(has_one_atom(&ground) && has_one_add(&ground))
}

// p is static and true, so the add has no condition, and the delete is idle.
#[test]
fn an_idle_delete_is_left_out(rt: HostRuntime) {
    let is_left_out = is_left_out(rt.alloc());
    assert!(rt; matches!(is_left_out, Ok(true)));
}
