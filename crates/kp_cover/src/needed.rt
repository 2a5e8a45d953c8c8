//! The targets of a ground problem.
ghost use Rattle.std.specs.Prelude.{◌≡◌, ◌++◌, fold, IfOk, OnOk};
ghost use Rattle.std.specs.List.{flat_map};
ghost use Rattle.kp_base.specs.LitSet.{with_lit, set_of};
ghost use Rattle.kp_cover.specs.Targets.{AreTargets};

use crate::distinct::literals;
use kp_base::{Action, Ground, Lit, LitSet, Memory, Row};
use std::alloc::Global;

// Puts literals into the set.
fn insert_all(set: &mut LitSet, lits: &[Lit]) -> Result<(), Memory>
    ensures { OnOk result (set.new ≡ fold (λ s l. with_lit l s) set.old lits.now) }
{
    for l in lits {
        set.insert(*l)?;
    }
    Ok(())
}

// Puts the literals of preconditions into the set.
fn insert_preconditions(set: &mut LitSet, actions: &[Action]) -> Result<(), Memory>
    ensures { OnOk result (set.new ≡ fold (λ s l. with_lit l s) set.old (flat_map (λ a. a.pre) actions.now)) }
{
    for a in actions {
        insert_all(set, a.pre.slice())?;
    }
    Ok(())
}

// The set of the targets.
fn target_set(alloc: Global, ground: &Ground) -> Result<LitSet, Memory>
    ensures { IfOk result (λ set. set ≡ set_of (flat_map (λ a. a.pre) ground.now.actions ++ ground.now.goal)) }
{
    let mut set = LitSet::new(alloc);
    insert_preconditions(&mut set, ground.actions.slice())?;
    insert_all(&mut set, ground.goal.slice())?;
    Ok(set)
}

/// The targets of a ground problem, ascending: the literals of preconditions, and of the goal.
pub fn targets(alloc: Global, ground: &Ground) -> Result<Row<Lit>, Memory>
    ensures { IfOk result (AreTargets ground.now) }
{
    let set = target_set(alloc, ground)?;
    let lits = literals(alloc, &set)?;
    Ok(Row::from_vec(lits))
}
