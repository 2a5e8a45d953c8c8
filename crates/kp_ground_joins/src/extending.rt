ghost use Rattle.std.specs.Prelude.{◌≡◌, ◌<◌, ◌≤◌, length, flat_map, IfOk, MatchOption};
ghost use Rattle.kp_names.specs.View.{cond_view, lifted_view};
ghost use Rattle.kp_ground_instances.specs.StaticTables.{Gathers};
ghost use Rattle.kp_ground_joins.specs.Joining.{unless_refuted, tried, all_tried, AreAll};

use crate::unrefuted::unrefuted_in;
use kp_base::{Memory, Row};
use kp_ground_instances::Statics;
use kp_names::Cond;
use std::alloc::Global;

/// Adds a binding, where it isn't refuted. False where there are too many then.
pub fn add_unrefuted(
    alloc: Global,
    statics: &Statics,
    room: &mut Vec<u32>,
    pre: &Cond,
    most: u128,
    objects: &[u32],
    more: &mut Row<Row<u32>>,
) -> Result<bool, Memory>
    requires { length more.old ≤ most }
    ensures { IfOk result (λ fits. Gathers most more.old (unless_refuted (lifted_view statics.now) (cond_view pre.now) objects.now) more.new fits) }
{
    if !unrefuted_in(statics, room, pre, objects)? {
        return Ok(true);
    }
    if more.len() as u128 >= most {
        return Ok(false);
    }
    more.push(Row::from_slice(alloc, objects)?)?;
    Ok(true)
}

// Adds a binding with each object at its end, where that isn't refuted. False where there are too many then.
fn extend_one(
    alloc: Global,
    statics: &Statics,
    room: &mut Vec<u32>,
    pre: &Cond,
    most: u128,
    binding: &[u32],
    range: &[u32],
    more: &mut Row<Row<u32>>,
) -> Result<bool, Memory>
    requires { length more.old ≤ most }
    ensures { IfOk result (λ fits. Gathers most more.old (flat_map (tried (lifted_view statics.now) (cond_view pre.now) binding.now) range.now) more.new fits) }
{
    let mut objects = Vec::from_slice(alloc, binding)?;
    for object in range {
        objects.truncate(binding.len());
        objects.push(*object)?;
        if !add_unrefuted(alloc, statics, room, pre, most, &objects, more)? {
            return Ok(false);
        }
    }
    Ok(true)
}

/// The bindings with an object more each that aren't refuted. None where there are more than so many.
pub fn extend_all(
    alloc: Global,
    statics: &Statics,
    pre: &Cond,
    most: u128,
    bindings: &[Row<u32>],
    range: &[u32],
) -> Result<Option<Row<Row<u32>>>, Memory>
    ensures { IfOk result (λ rows. MatchOption rows (most < length (all_tried (lifted_view statics.now) (cond_view pre.now) range.now bindings.now)) (λ rs. AreAll most (all_tried (lifted_view statics.now) (cond_view pre.now) range.now bindings.now) rs)) }
{
    let mut room = Vec::new(alloc);
    let mut more = Row::new(alloc);
    for binding in bindings {
        if !extend_one(
            alloc,
            statics,
            &mut room,
            pre,
            most,
            binding.slice(),
            range,
            &mut more,
        )? {
            return Ok(None);
        }
    }
    Ok(Some(more))
}
