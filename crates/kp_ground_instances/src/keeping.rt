ghost use Rattle.std.specs.Prelude.{◌≡◌, ◌<◌, ◌≤◌, ◌+◌, ◌*◌, ◌∷◌, [], true, map, length, IfOk, MatchOption};
ghost use Rattle.kp_base.specs.Lists.{only_if};
ghost use Rattle.kp_names.specs.View.{cond_view, schema_view, lifted_view};
ghost use Rattle.kp_ground_semantics.specs.Static.{settled};
ghost use Rattle.kp_ground_semantics.specs.Ground.{instance, kept_bindings, kept_instances};
ghost use Rattle.kp_ground_semantics.specs.Weights.{weight};
ghost use Rattle.kp_ground_instances.specs.Counts.{kept_view, capped};
ghost use Rattle.kp_ground_instances.specs.StaticTables.{Gathers, IsKeeping};

use crate::bindings::{binding_total, fill_binding};
use crate::counting::schema_weight;
use crate::kept::Kept;
use crate::settling::settled_in;
use crate::statics::Statics;
use kp_base::{Memory, Row};
use kp_names::Schema;
use std::alloc::Global;

/// The instance of a schema with these objects.
pub fn instance(alloc: Global, number: u32, objects: &[u32]) -> Result<Kept, Memory>
    ensures { IfOk result (λ one. kept_view one ≡ instance number objects.now) }
{
    Ok(Kept {
        schema: number,
        objects: Row::from_vec(Vec::from_slice(alloc, objects)?),
    })
}

// Adds the instance with these objects, where it is kept. False where there are too many then.
fn keep(
    alloc: Global,
    statics: &Statics,
    room: &mut Vec<u32>,
    number: u32,
    schema: &Schema,
    most: usize,
    objects: &[u32],
    kept: &mut Row<Kept>,
) -> Result<bool, Memory>
    requires { length kept.old ≤ most }
    ensures { IfOk result (λ fits. Gathers most (map kept_view kept.old) (only_if (settled (lifted_view statics.now) objects.now (cond_view schema.now.pre)) (instance number objects.now ∷ [])) (map kept_view kept.new) fits) }
{
    if !settled_in(statics, room, &schema.pre, objects)? {
        return Ok(true);
    }
    if kept.len() >= most {
        return Ok(false);
    }
    kept.push(instance(alloc, number, objects)?)?;
    Ok(true)
}

// Adds the kept instances of a schema. False where there are too many then.
fn keep_all(
    alloc: Global,
    statics: &Statics,
    number: u32,
    schema: &Schema,
    most: usize,
    kept: &mut Row<Kept>,
) -> Result<bool, Memory>
    requires { length kept.old ≤ most }
    ensures { IfOk result (λ fits. Gathers most (map kept_view kept.old) (map (instance number) (kept_bindings (lifted_view statics.now) (schema_view schema.now))) (map kept_view kept.new) fits) }
{
    let params = schema.params.slice();
    let total = binding_total(params)?;
    let mut objects = Vec::new(alloc);
    let mut room = Vec::new(alloc);
    for place in 0..total {
        fill_binding(&mut objects, params, place)?;
        if !keep(
            alloc, statics, &mut room, number, schema, most, &objects, kept,
        )? {
            return Ok(false);
        }
    }
    Ok(true)
}

// The same, and their weight comes to the sum.
fn keep_schema(
    alloc: Global,
    statics: &Statics,
    number: u32,
    schema: &Schema,
    most: usize,
    kept: &mut Row<Kept>,
    sum: &mut u128,
) -> Result<bool, Memory>
    requires { length kept.old ≤ most }
    ensures kept { IfOk result (λ fits. Gathers most (map kept_view kept.old) (map (instance number) (kept_bindings (lifted_view statics.now) (schema_view schema.now))) (map kept_view kept.new) fits) }
    ensures weight { IfOk result (λ fits. fits ≡ true → sum.new ≡ capped (sum.old + length (kept_bindings (lifted_view statics.now) (schema_view schema.now)) * weight (schema_view schema.now))) }
{
    let before = kept.len();
    if !keep_all(alloc, statics, number, schema, most, kept)? {
        return Ok(false);
    }
    let more = (kept.len() - before) as u128;
    *sum = sum.saturating_add(more.saturating_mul(schema_weight(schema)));
    Ok(true)
}

/// Kept instances, by schema and then by objects, and their weight.
#[derive(Drop)]
pub struct Keeping {
    /// The instances.
    pub kept: Row<Kept>,
    /// What they weigh together.
    pub weight: u128,
}

/// All kept instances, found among all lists of objects. None where there are more than so many.
pub fn keep_schemas(
    alloc: Global,
    statics: &Statics,
    most: usize,
) -> Result<Option<Keeping>, Memory>
    ensures { IfOk result (λ all. MatchOption all (most < length (kept_instances (lifted_view statics.now))) (λ k. IsKeeping (lifted_view statics.now) most k)) }
{
    let mut kept = Row::new(alloc);
    let mut weight = 0u128;
    let mut number = 0u32;
    for schema in statics.lifted().schemas.slice() {
        if !keep_schema(alloc, statics, number, schema, most, &mut kept, &mut weight)? {
            return Ok(None);
        }
        number = number.checked_add(1).ok_or(Memory)?;
    }
    Ok(Some(Keeping { kept, weight }))
}
