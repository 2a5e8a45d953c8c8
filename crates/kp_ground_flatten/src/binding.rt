ghost use Rattle.std.specs.Prelude.{◌≡◌, ◌<◌, ◌++◌, Some, length, map, IfOk, OnOk};
ghost use Rattle.kp_names_semantics.specs.Lifted.{bindings, object_of};
ghost use Rattle.kp_names_semantics.specs.Numbered.{Eff as Effect};
ghost use Rattle.kp_names.specs.View as owned;
ghost use Rattle.kp_names.specs.View.{lifted_view};
ghost use Rattle.kp_ground_flatten.specs.Bound.{bound_cond, bound_eff, bound, bound_at};
ghost use Rattle.kp_ground_flatten.specs.Nodes.{cond_view, eff_view, node_view};

use crate::node::{BoundCond, BoundEff, BoundNode};
use bumpalo::Bump;
use bumpalo::collections::into_bump_slice;
use kp_base::{Memory, Row};
use kp_ground_instances::{binding_total, fill_binding, object_of, put_objects};
use kp_names::{Cond, Eff, Lifted, Schema};
use kp_names_semantics::{Range, Term};
use std::alloc::Global;

// The objects that terms stand for, in the arena.
fn bound_terms<'a>(bump: &'a Bump, objects: &[u32], terms: &[Term]) -> Result<&'a [u32], Memory>
    ensures { IfOk result (λ os. os.now ≡ map (object_of objects.now) terms.now) }
{
    let mut bound = Vec::with_capacity(bump, terms.len())?;
    put_objects(&mut bound, objects, terms)?;
    Ok(into_bump_slice(bound))
}

/// A condition under a binding, in the arena.
#[cycle(conds)]
pub(crate) fn condition<'a>(
    bump: &'a Bump,
    objects: &[u32],
    cond: &Cond,
) -> Result<BoundCond<'a>, Memory>
    ensures { IfOk result (λ c. cond_view c ≡ bound_cond objects.now (owned.cond_view cond.now)) }
{
    match cond {
        Cond::All(parts) => Ok(BoundCond::All(conditions(bump, objects, parts.slice())?)),
        Cond::Atom {
            positive,
            pred,
            terms,
        } => Ok(BoundCond::Atom {
            positive: *positive,
            pred: *pred,
            terms: bound_terms(bump, objects, terms.slice())?,
        }),
        Cond::Same {
            positive,
            left,
            right,
        } => Ok(BoundCond::Same {
            positive: *positive,
            left: object_of(objects, left),
            right: object_of(objects, right),
        }),
    }
}

// Conditions under a binding.
#[cycle(conds)]
fn conditions<'a>(
    bump: &'a Bump,
    objects: &[u32],
    parts: &[Cond],
) -> Result<&'a [BoundCond<'a>], Memory>
    ensures { IfOk result (λ cs. map cond_view cs.now ≡ map (bound_cond objects.now) (map owned.cond_view parts.now)) }
{
    let mut bound = Vec::with_capacity(bump, parts.len())?;
    'parts: for part in parts {
        bound.push(condition(bump, objects, part)?)?;
    }
    Ok(into_bump_slice(bound))
}

// An effect under a condition, in the arena.
fn under<'a>(
    bump: &'a Bump,
    cond: BoundCond<'a>,
    body: BoundEff<'a>,
) -> Result<BoundEff<'a>, Memory>
    ensures { IfOk result (λ e. eff_view e ≡ Effect.when (cond_view cond.entry) (eff_view body.entry)) }
{
    Ok(BoundEff::When(cond, bump.try_alloc(body)?))
}

/// An effect under a binding, which is the same afterwards, in the arena.
#[cycle(effs)]
pub(crate) fn effect<'a>(
    bump: &'a Bump,
    alloc: Global,
    objects: &mut Vec<u32>,
    eff: &Eff,
) -> Result<BoundEff<'a>, Memory>
    ensures kept { OnOk result (objects.new.items ≡ objects.old.items) }
    ensures bound { IfOk result (λ e. eff_view e ≡ bound_eff objects.old.items (owned.eff_view eff.now)) }
{
    match eff {
        Eff::All(parts) => Ok(BoundEff::All(effects(bump, alloc, objects, parts.slice())?)),
        Eff::When(cond, body) => {
            let cond = condition(bump, objects.as_slice(), cond)?;
            let body = effect(bump, alloc, objects, body)?;
            under(bump, cond, body)
        }
        Eff::Each(ranges, body) => {
            let ranges = ranges.slice();
            Ok(BoundEff::All(bodies(bump, alloc, objects, ranges, body)?))
        }
        Eff::Atom {
            positive,
            pred,
            terms,
        } => Ok(BoundEff::Atom {
            positive: *positive,
            pred: *pred,
            terms: bound_terms(bump, objects.as_slice(), terms.slice())?,
        }),
    }
}

// Effects under a binding, which is the same afterwards.
#[cycle(effs)]
fn effects<'a>(
    bump: &'a Bump,
    alloc: Global,
    objects: &mut Vec<u32>,
    parts: &[Eff],
) -> Result<&'a [BoundEff<'a>], Memory>
    ensures kept { OnOk result (objects.new.items ≡ objects.old.items) }
    ensures bound { IfOk result (λ es. map eff_view es.now ≡ map (bound_eff objects.old.items) (map owned.eff_view parts.now)) }
{
    let mut bound = Vec::with_capacity(bump, parts.len())?;
    'parts: for part in parts {
        bound.push(effect(bump, alloc, objects, part)?)?;
    }
    Ok(into_bump_slice(bound))
}

// The body of a quantified effect under the binding and more objects behind it; the binding is the same afterwards.
#[cycle(effs)]
fn body<'a>(
    bump: &'a Bump,
    alloc: Global,
    objects: &mut Vec<u32>,
    inner: &[u32],
    eff: &Eff,
) -> Result<BoundEff<'a>, Memory>
    ensures kept { OnOk result (objects.new.items ≡ objects.old.items) }
    ensures bound { IfOk result (λ e. eff_view e ≡ bound_eff (objects.old.items ++ inner.now) (owned.eff_view eff.now)) }
{
    let outer = objects.len();
    objects.extend_from_slice(inner)?;
    let bound = effect(bump, alloc, objects, eff)?;
    objects.truncate(outer);
    Ok(bound)
}

// The body for each list of objects of some ranges.
#[cycle(effs)]
fn bodies<'a>(
    bump: &'a Bump,
    alloc: Global,
    objects: &mut Vec<u32>,
    ranges: &[Range],
    eff: &Eff,
) -> Result<&'a [BoundEff<'a>], Memory>
    ensures kept { OnOk result (objects.new.items ≡ objects.old.items) }
    ensures bound { IfOk result (λ es. map eff_view es.now ≡ map (λ os. bound_eff (objects.old.items ++ os) (owned.eff_view eff.now)) (bindings ranges.now)) }
{
    let total = binding_total(ranges)?;
    let mut bound = Vec::with_capacity(bump, total)?;
    let mut inner = Vec::new(alloc);
    'numbers: for number in 0..total {
        fill_binding(&mut inner, ranges, number)?;
        bound.push(body(bump, alloc, objects, inner.as_slice(), eff)?)?;
    }
    Ok(into_bump_slice(bound))
}

// The tree of a schema with these objects.
fn instance<'a>(
    bump: &'a Bump,
    alloc: Global,
    schema: &Schema,
    objects: &[u32],
) -> Result<BoundNode<'a>, Memory>
    ensures { IfOk result (λ node. node_view node ≡ bound objects.now (owned.schema_view schema.now)) }
{
    let mut binding = Vec::from_slice(alloc, objects)?;
    let pre = condition(bump, objects, &schema.pre)?;
    let effect = effect(bump, alloc, &mut binding, &schema.effect)?;
    Ok(BoundNode { pre, effect })
}

/// The tree of the schema of this number with these objects for its parameters, in the arena.
pub fn bind<'a>(
    bump: &'a Bump,
    alloc: Global,
    lifted: &Lifted,
    schema: u32,
    objects: &Row<u32>,
) -> Result<BoundNode<'a>, Memory>
    requires { schema < length (lifted_view lifted.now).schemas }
    ensures { IfOk result (λ node. bound_at (lifted_view lifted.now) schema objects.now ≡ Some (node_view node)) }
{
    let node = instance(
        bump,
        alloc,
        lifted.schemas.at(schema as usize),
        objects.slice(),
    )?;
    Ok(node)
}
