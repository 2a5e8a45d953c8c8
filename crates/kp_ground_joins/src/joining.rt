ghost use Rattle.std.specs.Prelude.{◌≡◌, ◌<◌, ◌≤◌, ◌+◌, zero, IfOk, MatchOption};
ghost use Rattle.kp_names.specs.View.{cond_view, schema_view, lifted_view};
ghost use Rattle.kp_ground_semantics.specs.Partial.{partial_bindings, partials_to, schema_partials};
ghost use Rattle.kp_ground_joins.specs.Joining.{AreAll, IsJoined};

use crate::extending::{add_unrefuted, extend_all};
use kp_base::{Memory, Row};
use kp_ground_instances::Statics;
use kp_names::Schema;
use std::alloc::Global;

// The partial bindings of no parameter: one, or none where a literal without variables is false. None where there are
// more than so many.
fn join_none(
    alloc: Global,
    statics: &Statics,
    schema: &Schema,
    most: u128,
) -> Result<Option<Row<Row<u32>>>, Memory>
    ensures { IfOk result (λ rows. MatchOption rows (most < partials_to (lifted_view statics.now) (schema_view schema.now) zero) (λ rs. AreAll most (partial_bindings (lifted_view statics.now) (schema_view schema.now) zero) rs)) }
{
    let mut room = Vec::new(alloc);
    let mut rows = Row::new(alloc);
    if add_unrefuted(alloc, statics, &mut room, &schema.pre, most, &[], &mut rows)? {
        Ok(Some(rows))
    } else {
        Ok(None)
    }
}

/// The partial bindings of all parameters, extended parameter by parameter. Those of all lengths come to what is spent.
/// None where that makes more than so many.
pub fn join(
    alloc: Global,
    statics: &Statics,
    schema: &Schema,
    most: u128,
    spent: &mut u128,
) -> Result<Option<Row<Row<u32>>>, Memory>
    requires { spent.old ≤ most }
    ensures { IfOk result (λ rows. MatchOption rows (most < spent.old + schema_partials (lifted_view statics.now) (schema_view schema.now)) (λ rs. IsJoined (lifted_view statics.now) (schema_view schema.now) most spent.old spent.new rs)) }
{
    let Some(mut rows) = join_none(alloc, statics, schema, most - *spent)? else {
        return Ok(None);
    };
    *spent += rows.len() as u128;
    for range in schema.params.slice() {
        let left = most - *spent;
        let objects = range.objects.slice();
        let Some(more) = extend_all(alloc, statics, &schema.pre, left, rows.slice(), objects)?
        else {
            return Ok(None);
        };
        *spent += more.len() as u128;
        rows = more;
    }
    Ok(Some(rows))
}
