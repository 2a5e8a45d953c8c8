ghost use Rattle.std.specs.Prelude.{◌≡◌, IfOk, OnOk};
ghost use Rattle.kp_law_texts.specs.Pieces.{Puts};
ghost use Rattle.kp_write.specs.Named.{problem_of};
ghost use Rattle.kp_write.specs.Written.{domain_front, domain_end};

use crate::putting::{put_lines, put_names};
use kp_base::{Memory, Row, Text};
use kp_classic::Task;
use kp_plans_spelling::put;
use std::alloc::Global;

/// Adds the domain file as far as its operators: a predicate for each fact.
pub fn put_domain_front(out: &mut Vec<u8>, facts: &[Text]) -> Result<(), Memory>
    ensures { OnOk result (Puts out.old.items out.new.items (domain_front facts.now)) }
{
    put(
        out,
        b"(define (domain kplan)\n(:requirements :strips :negative-preconditions :conditional-effects)\n(:predicates\n",
    )?;
    put_names(out, facts)?;
    put(out, b")\n")?;
    Ok(())
}

/// Adds what stands behind the operators.
pub fn put_domain_end(out: &mut Vec<u8>) -> Result<(), Memory>
    ensures { OnOk result (Puts out.old.items out.new.items domain_end) }
{
    put(out, b")\n")?;
    Ok(())
}

/// The problem file of a task: what holds at the start, and the facts of the goal that must hold.
pub fn problem_text(alloc: Global, task: &Task) -> Result<Row<u8>, Memory>
    ensures { IfOk result (λ bytes. bytes ≡ problem_of task.now) }
{
    let mut out = Vec::new(alloc);
    put(
        &mut out,
        b"(define (problem kplan)\n(:domain kplan)\n(:init\n",
    )?;
    put_lines(&mut out, task.facts.slice(), task.init.slice())?;
    put(&mut out, b")\n(:goal (and\n")?;
    put_lines(&mut out, task.facts.slice(), task.goal.yes.slice())?;
    put(&mut out, b"))\n)\n")?;
    Ok(Row::from_vec(out))
}
