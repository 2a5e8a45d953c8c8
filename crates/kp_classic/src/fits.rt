//! Whether the numbers of a task are those of its facts.
ghost use Rattle.std.specs.Prelude.{◌≡◌, ◌<◌, ◌↔◌, ◌&&◌, IsTrue};
ghost use Rattle.std.specs.List.{list_all};
ghost use Rattle.kp_classic.specs.Fits.{are_below, fits, fits_effect, fits_op, IsFit};

use crate::{Conds, Op, OpEffect, Task};

const MOST: usize = 2_147_483_648;

// Whether each number is below the count.
fn are_below(facts: &[u32], count: u32) -> bool
    ensures { result ≡ are_below count facts.now }
{
    facts.iter().all(|fact| *fact < count)
}

// Whether the conditions are on these facts.
fn fits(conds: &Conds, count: u32) -> bool
    ensures { result ≡ fits count conds.now }
{
    are_below(conds.yes.slice(), count) && are_below(conds.no.slice(), count)
}

// Whether the effect is on these facts.
fn fits_effect(effect: &OpEffect, count: u32) -> bool
    ensures { result ≡ fits_effect count effect.now }
{
    effect.fact < count && fits(&effect.cond, count)
}

fn all_effects_fit(effects: &[OpEffect], count: u32) -> bool
    ensures { result ≡ list_all (fits_effect count) effects.now }
{
    effects.iter().all(|effect| fits_effect(effect, count))
}

// Whether the operator is on these facts.
fn fits_op(op: &Op, count: u32) -> bool
    ensures { result ≡ fits_op count op.now }
{
    fits(&op.pre, count) && all_effects_fit(op.effects.slice(), count)
}

fn all_ops_fit(ops: &[Op], count: u32) -> bool
    ensures { result ≡ list_all (fits_op count) ops.now }
{
    ops.iter().all(|op| fits_op(op, count))
}

fn all_fit(task: &Task, count: u32) -> bool
    ensures { result ≡ (are_below count task.now.init && (fits count task.now.goal && list_all (fits_op count) task.now.ops)) }
{
    are_below(task.init.slice(), count)
        && (fits(&task.goal, count) && all_ops_fit(task.ops.slice(), count))
}

/// Whether each number in the task is that of one of its facts, as the calls on tasks ask; and a `u32` counts facts and
/// operators.
pub fn is_fit(task: &Task) -> bool
    ensures { IsTrue result ↔ IsFit task.now }
{
    task.facts.len() < MOST && task.ops.len() < MOST && all_fit(task, task.facts.len() as u32)
}
