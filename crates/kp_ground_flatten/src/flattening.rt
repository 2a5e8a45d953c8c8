ghost use Rattle.std.specs.Prelude.{◌≡◌, [], IfOk};
ghost use Rattle.kp_names.specs.View.{lifted_view};
ghost use Rattle.kp_base.specs.Lists.{each_once};
ghost use Rattle.kp_ground_semantics.specs.Static.{remaining};
ghost use Rattle.kp_ground_semantics.specs.Flattening.{flat, same_flat};
ghost use Rattle.kp_ground_flatten.specs.Bound.{flat_tree};
ghost use Rattle.kp_ground_flatten.specs.Nodes.{cond_view, eff_view, node_view};

use crate::conditions::Conditions;
use crate::effects::Effects;
use crate::evaluating::add_remaining;
use crate::handing::hand_bound;
use crate::node::{BoundCond, BoundEff, BoundNode};
use kp_base::{Memory, Row};
use kp_ground_instances::Statics;
use kp_ground_semantics::{Flat, FlatEffect};
use kp_names::Lifted;
use kp_names_semantics::GroundLit;
use std::alloc::Global;

/// The literals of a condition that aren't static, in text order.
pub(crate) fn precondition(
    alloc: Global,
    statics: &Statics,
    pre: &BoundCond,
) -> Result<Row<GroundLit>, Memory>
    ensures { IfOk result (λ row. row ≡ remaining (lifted_view statics.now) [] (cond_view pre.now)) }
{
    let mut conds = Conditions::new(alloc);
    add_remaining(statics, pre, &mut conds)?;
    let row = conds.owned(alloc)?;
    Ok(row)
}

// The flat effects of an effect, each once.
fn flat_effects(alloc: Global, statics: &Statics, eff: &BoundEff) -> Result<Row<FlatEffect>, Memory>
    ensures { IfOk result (λ row. row ≡ each_once same_flat (flat (lifted_view statics.now) [] (eff_view eff.now))) }
{
    let mut conds = Conditions::new(alloc);
    let mut effects = Effects::new(alloc);
    hand_bound(alloc, statics, eff, &mut conds, &mut effects)?;
    Ok(effects.into_row())
}

/// The flat form of a tree over a table of static predicates.
pub fn flatten_over<'a>(
    alloc: Global,
    statics: &Statics,
    node: &BoundNode<'a>,
) -> Result<Flat, Memory>
    ensures { IfOk result (λ f. f ≡ flat_tree (lifted_view statics.now) (node_view node.now)) }
{
    let pre = precondition(alloc, statics, &node.pre)?;
    let effects = flat_effects(alloc, statics, &node.effect)?;
    Ok(Flat { pre, effects })
}

/// The flat form of a tree: no static literals and equalities, no nesting, each effect once.
pub fn flatten<'a>(alloc: Global, lifted: &Lifted, node: &BoundNode<'a>) -> Result<Flat, Memory>
    ensures { IfOk result (λ f. f ≡ flat_tree (lifted_view lifted.now) (node_view node.now)) }
{
    let statics = Statics::of(alloc, lifted)?;
    let flat = flatten_over(alloc, &statics, node)?;
    Ok(flat)
}
