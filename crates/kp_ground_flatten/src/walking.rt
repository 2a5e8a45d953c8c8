//! The flat effects of an instance, handed over one by one. Their trees lie in an arena, part by part.

ghost use Rattle.std.specs.Prelude.{◌≡◌, ◌++◌, [], map, fold, IfOk, OnOk};
ghost use Rattle.std.specs.List.{flat_map};
ghost use Rattle.kp_names_semantics.specs.Lifted.{bindings};
ghost use Rattle.kp_names_semantics.specs.Numbered.{Eff as Effect};
ghost use Rattle.kp_names.specs.View as owned;
ghost use Rattle.kp_ground_semantics.specs.Static.{remaining};
ghost use Rattle.kp_ground_semantics.specs.Flattening.{under, flat};
ghost use Rattle.kp_ground_flatten.specs.Nodes.{cond_view, eff_view};
ghost use Rattle.kp_names.specs.View.{lifted_view};

use crate::arena::give_up;
use crate::binding::{condition, effect};
use crate::conditions::Conditions;
use crate::evaluating::{add_remaining, is_settled};
use crate::flattening::precondition;
use crate::handing::hand_bound;
use crate::node::{BoundCond, BoundEff};
use crate::sink::Sink;
use bumpalo::Bump;
use kp_base::{Memory, Row};
use kp_ground_instances::{Statics, binding_total, fill_binding};
use kp_names::{Cond, Eff};
use kp_names_semantics::{GroundLit, Range};
use std::alloc::Global;

// Hands over the flat effects of a bound effect under a bound condition, but for the static literals and equalities of
// this.
fn hand_under<'a, S: Sink>(
    alloc: Global,
    statics: &Statics,
    cond: &BoundCond<'a>,
    body: &BoundEff<'a>,
    sink: &mut S,
) -> Result<(), Memory>
    ensures { OnOk result (sink.new ≡ fold S.takes sink.old (map (under (remaining (lifted_view statics.now) [] (cond_view cond.now))) (flat (lifted_view statics.now) [] (eff_view body.now)))) }
{
    let mut conds = Conditions::new(alloc);
    add_remaining(statics, cond, &mut conds)?;
    hand_bound(alloc, statics, body, &mut conds, sink)
}

// Hands over the flat effects of an effect under a condition and a binding, which is the same afterwards. Where a static
// literal or an equality of the condition is false there are none, and the effect isn't bound.
fn hand_when<S: Sink>(
    bump: &Bump,
    alloc: Global,
    statics: &Statics,
    objects: &mut Vec<u32>,
    sink: &mut S,
    cond: &Cond,
    body: &Eff,
) -> Result<(), Memory>
    ensures binding { OnOk result (objects.new.items ≡ objects.old.items) }
    ensures taken { OnOk result (sink.new ≡ fold S.takes sink.old (flat (lifted_view statics.now) objects.old.items (Effect.when (owned.cond_view cond.now) (owned.eff_view body.now)))) }
{
    let guard = condition(bump, objects.as_slice(), cond)?;
    if !is_settled(statics, &guard) {
        return Ok(());
    }
    let tree = effect(bump, alloc, objects, body)?;
    hand_under(alloc, statics, &guard, &tree, sink)
}

// Hands over the flat effects of an effect under a binding, which is the same afterwards. Its tree lies in the arena.
fn hand_whole<S: Sink>(
    bump: &Bump,
    alloc: Global,
    statics: &Statics,
    objects: &mut Vec<u32>,
    sink: &mut S,
    eff: &Eff,
) -> Result<(), Memory>
    ensures binding { OnOk result (objects.new.items ≡ objects.old.items) }
    ensures taken { OnOk result (sink.new ≡ fold S.takes sink.old (flat (lifted_view statics.now) objects.old.items (owned.eff_view eff.now))) }
{
    let tree = effect(bump, alloc, objects, eff)?;
    let mut conds = Conditions::new(alloc);
    hand_bound(alloc, statics, &tree, &mut conds, sink)
}

// The same, and a condition right round the effect is judged first.
fn hand_tree<S: Sink>(
    bump: &Bump,
    alloc: Global,
    statics: &Statics,
    objects: &mut Vec<u32>,
    sink: &mut S,
    eff: &Eff,
) -> Result<(), Memory>
    ensures binding { OnOk result (objects.new.items ≡ objects.old.items) }
    ensures taken { OnOk result (sink.new ≡ fold S.takes sink.old (flat (lifted_view statics.now) objects.old.items (owned.eff_view eff.now))) }
{
    match eff {
        Eff::When(cond, body) => hand_when(bump, alloc, statics, objects, sink, cond, body),
        _ => hand_whole(bump, alloc, statics, objects, sink, eff),
    }
}

// The same, and its tree is given up.
fn hand_part<S: Sink>(
    bump: &mut Bump,
    alloc: Global,
    statics: &Statics,
    objects: &mut Vec<u32>,
    sink: &mut S,
    eff: &Eff,
) -> Result<(), Memory>
    ensures binding { OnOk result (objects.new.items ≡ objects.old.items) }
    ensures taken { OnOk result (sink.new ≡ fold S.takes sink.old (flat (lifted_view statics.now) objects.old.items (owned.eff_view eff.now))) }
{
    let done = hand_tree(bump, alloc, statics, objects, sink, eff);
    give_up(bump, alloc);
    done
}

// Hands over the flat effects of an effect under a binding, which is the same afterwards: one part after another, and
// for a quantifier one list of objects after another.
#[cycle(walks)]
fn walk<S: Sink>(
    bump: &mut Bump,
    alloc: Global,
    statics: &Statics,
    objects: &mut Vec<u32>,
    sink: &mut S,
    eff: &Eff,
) -> Result<(), Memory>
    ensures binding { OnOk result (objects.new.items ≡ objects.old.items) }
    ensures taken { OnOk result (sink.new ≡ fold S.takes sink.old (flat (lifted_view statics.now) objects.old.items (owned.eff_view eff.now))) }
{
    match eff {
        Eff::All(parts) => {
            'parts: for part in parts.slice() {
                walk(bump, alloc, statics, objects, sink, part)?;
            }
            Ok(())
        }
        Eff::Each(ranges, body) => {
            walk_each(bump, alloc, statics, objects, sink, ranges.slice(), body)
        }
        _ => hand_part(bump, alloc, statics, objects, sink, eff),
    }
}

// Hands over those of the body for each list of objects.
#[cycle(walks)]
fn walk_each<S: Sink>(
    bump: &mut Bump,
    alloc: Global,
    statics: &Statics,
    objects: &mut Vec<u32>,
    sink: &mut S,
    ranges: &[Range],
    eff: &Eff,
) -> Result<(), Memory>
    ensures binding { OnOk result (objects.new.items ≡ objects.old.items) }
    ensures taken { OnOk result (sink.new ≡ fold S.takes sink.old (flat_map (λ os. flat (lifted_view statics.now) (objects.old.items ++ os) (owned.eff_view eff.now)) (bindings ranges.now))) }
{
    let total = binding_total(ranges)?;
    let mut inner = Vec::new(alloc);
    'numbers: for number in 0..total {
        fill_binding(&mut inner, ranges, number)?;
        walk_inner(bump, alloc, statics, objects, sink, inner.as_slice(), eff)?;
    }
    Ok(())
}

// Hands over those of the body under the binding and more objects behind it.
#[cycle(walks)]
fn walk_inner<S: Sink>(
    bump: &mut Bump,
    alloc: Global,
    statics: &Statics,
    objects: &mut Vec<u32>,
    sink: &mut S,
    inner: &[u32],
    eff: &Eff,
) -> Result<(), Memory>
    ensures binding { OnOk result (objects.new.items ≡ objects.old.items) }
    ensures taken { OnOk result (sink.new ≡ fold S.takes sink.old (flat (lifted_view statics.now) (objects.old.items ++ inner.now) (owned.eff_view eff.now))) }
{
    let outer = objects.len();
    objects.extend_from_slice(inner)?;
    walk(bump, alloc, statics, objects, sink, eff)?;
    objects.truncate(outer);
    Ok(())
}

/// Hands over the flat effects of an effect under a binding. It is bound part by part: the tree of each lies in the arena,
/// which is reset behind it. A quantified effect that stands under no condition is bound for one list of objects at a
/// time.
pub fn hand_over<S: Sink>(
    bump: &mut Bump,
    alloc: Global,
    statics: &Statics,
    objects: &[u32],
    eff: &Eff,
    sink: &mut S,
) -> Result<(), Memory>
    ensures { OnOk result (sink.new ≡ fold S.takes sink.old (flat (lifted_view statics.now) objects.now (owned.eff_view eff.now))) }
{
    let mut binding = Vec::from_slice(alloc, objects)?;
    walk(bump, alloc, statics, &mut binding, sink, eff)
}

// The literals of a condition under a binding that aren't static, in text order. Its tree lies in the arena.
fn left_in(
    bump: &Bump,
    alloc: Global,
    statics: &Statics,
    objects: &[u32],
    cond: &Cond,
) -> Result<Row<GroundLit>, Memory>
    ensures { IfOk result (λ row. row ≡ remaining (lifted_view statics.now) objects.now (owned.cond_view cond.now)) }
{
    let tree = condition(bump, objects, cond)?;
    let row = precondition(alloc, statics, &tree)?;
    Ok(row)
}

/// The literals of a condition under a binding that aren't static, in text order. Its tree lies in the arena, which is
/// reset behind it.
pub fn left_of(
    bump: &mut Bump,
    alloc: Global,
    statics: &Statics,
    objects: &[u32],
    cond: &Cond,
) -> Result<Row<GroundLit>, Memory>
    ensures { IfOk result (λ row. row ≡ remaining (lifted_view statics.now) objects.now (owned.cond_view cond.now)) }
{
    let row = left_in(bump, alloc, statics, objects, cond);
    give_up(bump, alloc);
    row
}
