//! A line of cells.
ghost use Rattle.std.specs.Prelude.{◌≡◌, [], ◌∷◌, ◌++◌, ◌≤◌, ◌-◌, map, OnOk, IfOk};
ghost use Rattle.std.specs.List.{range_with_len};
ghost use Rattle.kp_gen.specs.Lines.{text};
ghost use Rattle.kp_gen.specs.Line.{cell, at_cell, next_cell, domain_lines, objects_lines, oneof_lines, init_lines, problem_lines, line_texts};

use crate::lines::{put_each, put_numbered};
use kp_base::{Memory, Row, Texts};
use kp_plans_spelling::put;
use std::alloc::Global;

const DOMAIN: &[u8] = b"(define (domain line)
(:requirements :typing :conditional-effects)
(:types cell)
(:predicates (at ?c - cell) (next ?b - cell ?a - cell))
(:action left
:parameters ()
:effect (forall (?b - cell ?a - cell) (when (and (at ?b) (next ?b ?a)) (and (at ?a) (not (at ?b)))))
)
)
";

fn domain(alloc: Global) -> Result<Row<u8>, Memory>
    ensures { IfOk result (λ bytes. bytes ≡ text domain_lines) }
{
    Ok(Row::from_vec(DOMAIN.to_vec(alloc)?))
}

// Adds the cells.
fn put_cells(out: &mut Vec<u8>, n: u32) -> Result<(), Memory>
    requires { n ≤ 100 }
    ensures { OnOk result (out.new.items ≡ out.old.items ++ text (map cell (range_with_len 1 n))) }
{
    put_each(out, b"c", n, b"\n")?;
    Ok(())
}

// Adds that something is at each cell.
fn put_at(out: &mut Vec<u8>, n: u32) -> Result<(), Memory>
    requires { n ≤ 100 }
    ensures { OnOk result (out.new.items ≡ out.old.items ++ text (map at_cell (range_with_len 1 n))) }
{
    put_each(out, b"(at c", n, b")\n")?;
    Ok(())
}

// Adds that a cell is next to the one before it.
fn put_next(out: &mut Vec<u8>, i: u32) -> Result<(), Memory>
    requires { 1 ≤ i }
    ensures { OnOk result (out.new.items ≡ out.old.items ++ text (next_cell i ∷ [])) }
{
    put_numbered(out, b"(next c", i, b"")?;
    put_numbered(out, b" c", i - 1, b")\n")
}

// Adds that each cell but the first is.
fn put_all_next(out: &mut Vec<u8>, n: u32) -> Result<(), Memory>
    requires { n ≤ 100 }
    ensures { OnOk result (out.new.items ≡ out.old.items ++ text (map next_cell (range_with_len 2 (n - 1)))) }
{
    for i in 2..n + 1 {
        put_next(out, i)?;
    }
    Ok(())
}

// Adds the section of the objects.
fn put_objects(out: &mut Vec<u8>, n: u32) -> Result<(), Memory>
    requires { n ≤ 100 }
    ensures { OnOk result (out.new.items ≡ out.old.items ++ text (objects_lines n)) }
{
    put(out, b"(:objects\n")?;
    put_cells(out, n)?;
    put(out, b"- cell)\n")?;
    Ok(())
}

// Adds that something is at one of the cells.
fn put_oneof(out: &mut Vec<u8>, n: u32) -> Result<(), Memory>
    requires { n ≤ 100 }
    ensures { OnOk result (out.new.items ≡ out.old.items ++ text (oneof_lines n)) }
{
    put(out, b"(oneof\n")?;
    put_at(out, n)?;
    put(out, b")\n")?;
    Ok(())
}

// Adds the section of the initial states.
fn put_init(out: &mut Vec<u8>, n: u32) -> Result<(), Memory>
    requires { n ≤ 100 }
    ensures { OnOk result (out.new.items ≡ out.old.items ++ text (init_lines n)) }
{
    put(out, b"(:init\n")?;
    put_oneof(out, n)?;
    put_all_next(out, n)?;
    put(out, b")\n")?;
    Ok(())
}

// Adds the problem.
fn put_problem(out: &mut Vec<u8>, n: u32) -> Result<(), Memory>
    requires { n ≤ 100 }
    ensures { OnOk result (out.new.items ≡ out.old.items ++ text (problem_lines n)) }
{
    put(out, b"(define (problem line)\n(:domain line)\n")?;
    put_objects(out, n)?;
    put_init(out, n)?;
    put(out, b"(:goal (at c1))\n)\n")?;
    Ok(())
}

fn problem(alloc: Global, n: u32) -> Result<Row<u8>, Memory>
    requires { n ≤ 100 }
    ensures { IfOk result (λ bytes. bytes ≡ text (problem_lines n)) }
{
    let mut out = Vec::new(alloc);
    put_problem(&mut out, n)?;
    Ok(Row::from_vec(out))
}

/// Cells in a line, something in one of them: it is to go to the first, one cell to the left at a time.
pub fn line_problem(alloc: Global, n: u32) -> Result<Texts, Memory>
    requires least { 2 ≤ n }
    requires most { n ≤ 100 }
    ensures { IfOk result (λ texts. texts ≡ line_texts n) }
{
    Ok(Texts {
        domain: domain(alloc)?,
        problem: problem(alloc, n)?,
    })
}
