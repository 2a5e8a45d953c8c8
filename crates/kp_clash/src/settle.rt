//! Removes pairs that don't stay.
ghost use Rattle.std.specs.Prelude.{◌<◌, length, OnOk};
ghost use Rattle.kp_clash_exclusive.specs.Paired.{is_pair};
ghost use Rattle.kp_clash_exclusive.specs.Removed.{IsBroken, Shrinks};
ghost use Rattle.kp_clash.specs.Settling.{IsSettled};

use crate::broken::broken;
use kp_base::{AtomId, Ground, Memory};
use kp_clash_exclusive::Pairs;
use kp_clash_sweeps::{Asking, Touched, sweep_on};
use std::alloc::Global;

// Removes a pair that doesn't stay, and what it held up.
fn remove(
    ground: &Ground,
    pairs: &mut Pairs,
    last: &mut Touched,
    next: &mut Touched,
    asking: &mut Asking,
    p: AtomId,
    q: AtomId,
)
    requires { IsBroken (is_pair pairs.old) ground.now.actions p.0 q.0 }
    ensures shrinks { Shrinks ground.now.actions pairs.old pairs.new }
    ensures fewer { length pairs.new < length pairs.old }
{
    pairs.remove(p, q);
    last.note(pairs, p, q);
    sweep_on(ground, pairs, last, next, asking);
}

// Removes pairs until each one stays, with room for those that are to be looked at.
fn settle_in(
    ground: &Ground,
    pairs: &mut Pairs,
    last: &mut Touched,
    next: &mut Touched,
    asking: &mut Asking,
)
    ensures { IsSettled ground.now pairs.old pairs.new }
{
    last.note_all();
    sweep_on(ground, pairs, last, next, asking);
    'rounds: while let Some((p, q)) = broken(ground, pairs) {
        remove(ground, pairs, last, next, asking, p, q);
    }
}

// The same where there is room for the last pairs.
fn settle_with(
    alloc: Global,
    ground: &Ground,
    pairs: &mut Pairs,
    last: &mut Touched,
) -> Result<(), Memory>
    ensures { OnOk result (IsSettled ground.now pairs.old pairs.new) }
{
    let mut next = Touched::new(alloc, pairs.atoms())?;
    let mut asking = Asking::new(alloc, ground)?;
    settle_in(ground, pairs, last, &mut next, &mut asking);
    Ok(())
}

/// Removes pairs until each one stays.
pub(crate) fn settle(alloc: Global, ground: &Ground, pairs: &mut Pairs) -> Result<(), Memory>
    ensures { OnOk result (IsSettled ground.now pairs.old pairs.new) }
{
    let mut last = Touched::new(alloc, pairs.atoms())?;
    settle_with(alloc, ground, pairs, &mut last)
}
