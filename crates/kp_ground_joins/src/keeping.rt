ghost use Rattle.std.specs.Prelude.{◌≡◌, ◌<◌, ◌≤◌, ◌+◌, ◌*◌, ◌++◌, true, flat_map, map, length, IfOk, IfErr, OnOk, MatchOption};
ghost use Rattle.kp_names.specs.View.{cond_view, schema_view, lifted_view};
ghost use Rattle.kp_ground_semantics.specs.Ground.{instance, kept_bindings, kept_instances};
ghost use Rattle.kp_ground_semantics.specs.Weights.{binding_count, weight};
ghost use Rattle.kp_ground_semantics.specs.Partial.{schema_partials, partial_count};
ghost use Rattle.kp_ground_instances.specs.Counts.{kept_view, capped};
ghost use Rattle.kp_ground_joins.specs.Limits.{IsWithinLimits, StopsAtCounts};
ghost use Rattle.kp_ground_joins.specs.Joining.{if_settled, Counts, IsKeptByJoins};

use crate::joining::join;
use kp_base::{Limits, Memory, Refused, Row, Stop};
use kp_ground_instances::{
    Keeping, Kept, Statics, instance, keep_schemas, problem_bindings, schema_weight, settled_in,
};
use kp_names::{Cond, Schema};
use std::alloc::Global;

// Adds the instance with these objects, where the precondition is settled.
fn keep_one(
    alloc: Global,
    statics: &Statics,
    room: &mut Vec<u32>,
    number: u32,
    pre: &Cond,
    objects: &[u32],
    kept: &mut Row<Kept>,
) -> Result<(), Memory>
    ensures { OnOk result (map kept_view kept.new ≡ map kept_view kept.old ++ if_settled (lifted_view statics.now) (cond_view pre.now) number objects.now) }
{
    if settled_in(statics, room, pre, objects)? {
        kept.push(instance(alloc, number, objects)?)?;
    }
    Ok(())
}

// The same of all these.
fn keep_settled(
    alloc: Global,
    statics: &Statics,
    number: u32,
    pre: &Cond,
    rows: &[Row<u32>],
    kept: &mut Row<Kept>,
) -> Result<(), Memory>
    ensures { OnOk result (map kept_view kept.new ≡ map kept_view kept.old ++ flat_map (if_settled (lifted_view statics.now) (cond_view pre.now) number) rows.now) }
{
    let mut room = Vec::new(alloc);
    for objects in rows {
        keep_one(
            alloc,
            statics,
            &mut room,
            number,
            pre,
            objects.slice(),
            kept,
        )?;
    }
    Ok(())
}

// Adds the kept instances of a schema, and their weight to the sum. False where there are too many partial bindings
// then.
fn join_schema(
    alloc: Global,
    statics: &Statics,
    number: u32,
    schema: &Schema,
    most: u128,
    spent: &mut u128,
    kept: &mut Row<Kept>,
    sum: &mut u128,
) -> Result<bool, Memory>
    requires { spent.old ≤ most }
    ensures counted { IfOk result (λ fits. Counts most spent.old (schema_partials (lifted_view statics.now) (schema_view schema.now)) spent.new fits) }
    ensures kept { IfOk result (λ fits. fits ≡ true → map kept_view kept.new ≡ map kept_view kept.old ++ map (instance number) (kept_bindings (lifted_view statics.now) (schema_view schema.now))) }
    ensures weight { IfOk result (λ fits. fits ≡ true → sum.new ≡ capped (sum.old + length (kept_bindings (lifted_view statics.now) (schema_view schema.now)) * weight (schema_view schema.now))) }
{
    let Some(rows) = join(alloc, statics, schema, most, spent)? else {
        return Ok(false);
    };
    let before = kept.len();
    keep_settled(alloc, statics, number, &schema.pre, rows.slice(), kept)?;
    let more = (kept.len() - before) as u128;
    *sum = sum.saturating_add(more.saturating_mul(schema_weight(schema)));
    Ok(true)
}

// All kept instances, found by joins. None where there are more partial bindings than so many.
fn join_schemas(alloc: Global, statics: &Statics, most: u128) -> Result<Option<Keeping>, Memory>
    ensures { IfOk result (λ all. MatchOption all (most < partial_count (lifted_view statics.now)) (λ k. IsKeptByJoins (lifted_view statics.now) most k)) }
{
    let mut kept = Row::new(alloc);
    let mut weight = 0u128;
    let mut spent = 0u128;
    let mut number = 0u32;
    for schema in statics.lifted().schemas.slice() {
        if !join_schema(
            alloc,
            statics,
            number,
            schema,
            most,
            &mut spent,
            &mut kept,
            &mut weight,
        )? {
            return Ok(None);
        }
        number = number.checked_add(1).ok_or(Memory)?;
    }
    Ok(Some(Keeping { kept, weight }))
}

// The kept instances, where all bindings are within the limit.
fn listed_instances(alloc: Global, statics: &Statics, limits: &Limits) -> Result<Row<Kept>, Stop>
    requires { binding_count (lifted_view statics.now) ≤ limits.now.bindings }
    ensures kept { IfOk result (λ row. map kept_view row ≡ kept_instances (lifted_view statics.now)) }
    ensures within { OnOk result (IsWithinLimits (lifted_view statics.now) limits.now) }
    ensures refused { IfErr result (StopsAtCounts (lifted_view statics.now) limits.now) }
{
    let Some(all) = keep_schemas(alloc, statics, limits.actions as usize)? else {
        return Err(Stop::Refused(Refused::ActionsOver));
    };
    if all.weight > u128::from(limits.weight) {
        return Err(Stop::Refused(Refused::EffectsOver));
    }
    Ok(all.kept)
}

// The kept instances, where all bindings are more than the limit.
fn joined_instances(alloc: Global, statics: &Statics, limits: &Limits) -> Result<Row<Kept>, Stop>
    requires { limits.now.bindings < binding_count (lifted_view statics.now) }
    ensures kept { IfOk result (λ row. map kept_view row ≡ kept_instances (lifted_view statics.now)) }
    ensures within { OnOk result (IsWithinLimits (lifted_view statics.now) limits.now) }
    ensures refused { IfErr result (StopsAtCounts (lifted_view statics.now) limits.now) }
{
    let Some(all) = join_schemas(alloc, statics, u128::from(limits.bindings))? else {
        return Err(Stop::Refused(Refused::BindingsOver));
    };
    if all.kept.len() > limits.actions as usize {
        return Err(Stop::Refused(Refused::ActionsOver));
    }
    if all.weight > u128::from(limits.weight) {
        return Err(Stop::Refused(Refused::EffectsOver));
    }
    Ok(all.kept)
}

/// The kept instances, by schema and then by objects. Refused where there are more bindings to look at, instances or
/// weight of these than the limits say.
pub fn kept_instances(alloc: Global, statics: &Statics, limits: &Limits) -> Result<Row<Kept>, Stop>
    ensures kept { IfOk result (λ row. map kept_view row ≡ kept_instances (lifted_view statics.now)) }
    ensures within { OnOk result (IsWithinLimits (lifted_view statics.now) limits.now) }
    ensures refused { IfErr result (StopsAtCounts (lifted_view statics.now) limits.now) }
{
    if problem_bindings(statics.lifted()) > u128::from(limits.bindings) {
        joined_instances(alloc, statics, limits)
    } else {
        listed_instances(alloc, statics, limits)
    }
}
