//! Bombs in packages.
ghost use Rattle.std.specs.Prelude.{◌≡◌, ◌++◌, ◌≤◌, map, OnOk, IfOk};
ghost use Rattle.std.specs.List.{range_with_len};
ghost use Rattle.kp_gen.specs.Lines.{text};
ghost use Rattle.kp_gen.specs.Bombs.{package_name, armed, disarmed, domain_lines, objects_lines, init_lines, goal_lines, problem_lines, bombs_texts};

use crate::lines::put_each;
use kp_base::{Memory, Row, Texts};
use kp_plans_spelling::put;
use std::alloc::Global;

const DOMAIN: &[u8] = b"(define (domain bombs)
(:requirements :typing :negative-preconditions :conditional-effects)
(:types package toilet)
(:predicates (armed ?p - package) (clogged ?t - toilet))
(:action dunk
:parameters (?p - package ?t - toilet)
:precondition (not (clogged ?t))
:effect (and (when (armed ?p) (not (armed ?p))) (clogged ?t))
)
(:action flush
:parameters ()
:effect (forall (?t - toilet) (not (clogged ?t)))
)
)
";

fn domain(alloc: Global) -> Result<Row<u8>, Memory>
    ensures { IfOk result (λ bytes. bytes ≡ text domain_lines) }
{
    Ok(Row::from_vec(DOMAIN.to_vec(alloc)?))
}

// Adds the packages.
fn put_packages(out: &mut Vec<u8>, n: u32) -> Result<(), Memory>
    requires { n ≤ 100 }
    ensures { OnOk result (out.new.items ≡ out.old.items ++ text (map package_name (range_with_len 1 n))) }
{
    put_each(out, b"p", n, b"\n")?;
    Ok(())
}

// Adds that each package is armed.
fn put_armed(out: &mut Vec<u8>, n: u32) -> Result<(), Memory>
    requires { n ≤ 100 }
    ensures { OnOk result (out.new.items ≡ out.old.items ++ text (map armed (range_with_len 1 n))) }
{
    put_each(out, b"(armed p", n, b")\n")?;
    Ok(())
}

// Adds that no package is armed.
fn put_disarmed(out: &mut Vec<u8>, n: u32) -> Result<(), Memory>
    requires { n ≤ 100 }
    ensures { OnOk result (out.new.items ≡ out.old.items ++ text (map disarmed (range_with_len 1 n))) }
{
    put_each(out, b"(not (armed p", n, b"))\n")?;
    Ok(())
}

// Adds the section of the objects.
fn put_objects(out: &mut Vec<u8>, n: u32) -> Result<(), Memory>
    requires { n ≤ 100 }
    ensures { OnOk result (out.new.items ≡ out.old.items ++ text (objects_lines n)) }
{
    put(out, b"(:objects\n")?;
    put_packages(out, n)?;
    put(out, b"- package t1 t2 - toilet)\n")?;
    Ok(())
}

// Adds the section of the initial states.
fn put_init(out: &mut Vec<u8>, n: u32) -> Result<(), Memory>
    requires { n ≤ 100 }
    ensures { OnOk result (out.new.items ≡ out.old.items ++ text (init_lines n)) }
{
    put(out, b"(:init\n(oneof\n")?;
    put_armed(out, n)?;
    put(out, b")\n)\n")?;
    Ok(())
}

// Adds the section of the goal.
fn put_goal(out: &mut Vec<u8>, n: u32) -> Result<(), Memory>
    requires { n ≤ 100 }
    ensures { OnOk result (out.new.items ≡ out.old.items ++ text (goal_lines n)) }
{
    put(out, b"(:goal (and\n")?;
    put_disarmed(out, n)?;
    put(out, b"))\n")?;
    Ok(())
}

// Adds the problem.
fn put_problem(out: &mut Vec<u8>, n: u32) -> Result<(), Memory>
    requires { n ≤ 100 }
    ensures { OnOk result (out.new.items ≡ out.old.items ++ text (problem_lines n)) }
{
    put(out, b"(define (problem bombs)\n(:domain bombs)\n")?;
    put_objects(out, n)?;
    put_init(out, n)?;
    put_goal(out, n)?;
    put(out, b")\n")?;
    Ok(())
}

fn problem(alloc: Global, n: u32) -> Result<Row<u8>, Memory>
    requires { n ≤ 100 }
    ensures { IfOk result (λ bytes. bytes ≡ text (problem_lines n)) }
{
    let mut out = Vec::new(alloc);
    put_problem(&mut out, n)?;
    Ok(Row::from_vec(out))
}

/// Packages of which one is armed, and two toilets in which a bomb is put out: none is to be armed. A toilet that was
/// used is clogged until all are flushed.
pub fn bombs_problem(alloc: Global, n: u32) -> Result<Texts, Memory>
    requires least { 2 ≤ n }
    requires most { n ≤ 100 }
    ensures { IfOk result (λ texts. texts ≡ bombs_texts n) }
{
    Ok(Texts {
        domain: domain(alloc)?,
        problem: problem(alloc, n)?,
    })
}
