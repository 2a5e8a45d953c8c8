use crate::reading::resolved;
use kp_base::{Ground, Limits, Refused, Stop};
use kp_ground::ground;
use kp_names::Lifted;
use std::alloc::Global;

const MOVES: &str =
    "(define (domain f) (:types cell) (:predicates (at ?c - cell)) (:action move :parameters (?x ?y - cell) :precondition (at ?x) :effect (and (not (at ?x)) (at ?y))))";

const TWO_CELLS: &str =
    "(define (problem f) (:domain f) (:objects a b - cell) (:init (at a)) (:goal (at b)))";

pub const CELLS: &str =
    "(define (domain cells) (:predicates (x1) (x2) (x3)) (:action left :effect (and (when (x3) (and (x2) (not (x3)))) (when (x2) (and (x1) (not (x2)))))))";

pub const ONE_IS_FULL: &str =
    "(define (problem c) (:domain cells) (:init (oneof (x1) (x2) (x3))) (:goal (x1)))";

// Whether there are so many atoms and actions within these limits.
fn has(alloc: Global, lifted: &Lifted, limits: &Limits, atoms: usize, actions: usize) -> bool {
    match ground(alloc, lifted, limits) {
        Ok(ground) => ground.atoms.len() == atoms && ground.actions.len() == actions,
        Err(_) => false,
    }
}

/// The limits of grounding.
#[derive(Clone, Copy, Debug, PartialEq, Eq)]
pub enum Limit {
    /// Of bindings.
    Bindings,
    /// Of atoms.
    Atoms,
    /// Of actions.
    Actions,
    /// Of the actions' weight.
    Weight,
}

/// The limit that a refusal tells.
pub fn limit_in(refused: &Refused) -> Option<Limit> {
    match refused {
        Refused::BindingsOver => Some(Limit::Bindings),
        Refused::AtomsOver => Some(Limit::Atoms),
        Refused::ActionsOver => Some(Limit::Actions),
        Refused::EffectsOver => Some(Limit::Weight),
        _ => None,
    }
}

fn is_refused_for(answer: &Result<Ground, Stop>, limit: Limit) -> bool {
    matches!(answer, Err(Stop::Refused(found)) if limit_in(found) == Some(limit))
}

/// Whether this limit is told.
pub fn tells(alloc: Global, lifted: &Lifted, limits: &Limits, limit: Limit) -> bool {
    let answer = ground(alloc, lifted, limits);
    let is_told = is_refused_for(&answer, limit);
    drop(answer);
    is_told
}

/// The usual limits with these.
pub fn limits_of(bindings: u64, actions: u32, weight: u64) -> Limits {
    Limits {
        bindings,
        actions,
        weight,
        ..Limits::usual()
    }
}

// Whether the moves are grounded at each limit, and refused one below.
fn are_limits(alloc: Global, lifted: &Lifted) -> bool {
    let cases = [
        (3, 4, 12, Limit::Bindings),
        (4, 3, 12, Limit::Actions),
        (4, 4, 11, Limit::Weight),
        (3, 3, 11, Limit::Bindings),
        (4, 3, 11, Limit::Actions),
    ];
    for (bindings, actions, weight, limit) in cases {
        if !tells(alloc, lifted, &limits_of(bindings, actions, weight), limit) {
            return false;
        }
    }
    has(alloc, lifted, &limits_of(4, 4, 12), 2, 4)
}

// Four moves of weight three between two cells.
#[test]
fn limits_of_moves(rt: HostRuntime) {
    let alloc = rt.alloc();
    let lifted = resolved(alloc, MOVES, TWO_CELLS);
    let are_limits = matches!(&lifted, Ok(lifted) if are_limits(alloc, lifted));
    drop(lifted);
    assert!(rt; are_limits);
}

fn limits_of_atoms(atoms: u32) -> Limits {
    Limits {
        atoms,
        ..Limits::usual()
    }
}

fn is_limit_of_atoms(alloc: Global, lifted: &Lifted) -> bool {
    has(alloc, lifted, &limits_of_atoms(3), 3, 1)
        && tells(alloc, lifted, &limits_of_atoms(2), Limit::Atoms)
}

// Three cells are three atoms: with a limit of two they are too many.
#[test]
fn limit_of_atoms(rt: HostRuntime) {
    let alloc = rt.alloc();
    let lifted = resolved(alloc, CELLS, ONE_IS_FULL);
    let is_limit = matches!(&lifted, Ok(lifted) if is_limit_of_atoms(alloc, lifted));
    drop(lifted);
    assert!(rt; is_limit);
}
