ghost use Rattle.std.specs.Prelude.{◌≡◌, ◌++◌, ◌<◌, Option, IfOk, OnOk};
ghost use Rattle.kp_run_messages.specs.Counterexamples.{failing_line, counterexample_text};
ghost use Rattle.kp_run_messages.specs.Lifting.{unlifted_text};

use crate::lines::put_state;
use kp_base::{AtomId, GroundName, Lit, Memory, Row};
use kp_plans_spelling::{put, put_literal, put_number};
use std::alloc::Global;

// Adds the line that tells where a plan fails: at a step, which is counted from 0, or at the goal.
fn put_failing(
    out: &mut Vec<u8>,
    atoms: &[GroundName],
    step: Option<u32>,
    literal: Lit,
) -> Result<(), Memory>
    ensures { OnOk result (out.new.items ≡ out.old.items ++ failing_line atoms.now step literal) }
{
    match step {
        Some(step) => {
            put(out, b"step ")?;
            put_number(out, u64::from(step) + 1)?;
            put(out, b" ")?;
        }
        None => put(out, b"goal ")?,
    }
    put_literal(out, atoms, literal)?;
    put(out, b"\n")
}

/// A plan that doesn't work from every initial state: the first state from which it fails, the step that fails
/// from there, counted from 0, or none where that is the goal, and the literal that is false there.
pub fn counterexample(
    alloc: Global,
    atoms: &[GroundName],
    state: &[AtomId],
    step: Option<u32>,
    literal: Lit,
) -> Result<Row<u8>, Memory>
    ensures { IfOk result (λ text. text ≡ counterexample_text atoms.now state.now step literal) }
{
    let mut out = Vec::new(alloc);
    put(&mut out, b"no\n")?;
    put_state(&mut out, atoms, state)?;
    put_failing(&mut out, atoms, step, literal)?;
    Ok(Row::from_vec(out))
}

/// A plan that doesn't lift: the step at which lifting it fails, counted from 0, or none where that is the goal,
/// and the literal that isn't known there.
pub fn unlifted(
    alloc: Global,
    atoms: &[GroundName],
    step: Option<u32>,
    literal: Lit,
) -> Result<Row<u8>, Memory>
    ensures { IfOk result (λ text. text ≡ unlifted_text atoms.now step literal) }
{
    let mut out = Vec::new(alloc);
    put(&mut out, b"unlifted\n")?;
    put_failing(&mut out, atoms, step, literal)?;
    Ok(Row::from_vec(out))
}
