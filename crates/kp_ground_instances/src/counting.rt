ghost use Rattle.std.specs.Prelude.{◌≡◌, length};
ghost use Rattle.kp_names_semantics.specs.Lifted.{bindings};
ghost use Rattle.kp_names.specs.View.{cond_view, eff_view, schema_view, lifted_view};
ghost use Rattle.kp_ground_semantics.specs.Weights.{binding_count, cond_size, or_leaf, leaves_weight, weight};
ghost use Rattle.kp_ground_instances.specs.Counts.{capped};

use kp_names::{Cond, Eff, Lifted, Schema};
use kp_names_semantics::Range;

/// How many lists of objects there are for these ranges.
pub fn binding_number(ranges: &[Range]) -> u128
    ensures { result ≡ capped (length (bindings ranges.now)) }
{
    let mut number = 1u128;
    for range in ranges {
        number = number.saturating_mul(range.objects.len() as u128);
    }
    number
}

/// How many there are for the parameters of all schemas.
pub fn problem_bindings(lifted: &Lifted) -> u128
    ensures { result ≡ capped (binding_count (lifted_view lifted.now)) }
{
    let mut number = 0u128;
    for schema in lifted.schemas.slice() {
        number = number.saturating_add(binding_number(schema.params.slice()));
    }
    number
}

// How many literals and equalities a condition has.
fn condition_size(cond: &Cond) -> u128
    ensures { result ≡ capped (cond_size (cond_view cond.now)) }
{
    match cond {
        Cond::All(parts) => {
            let mut size = 0u128;
            for part in parts.slice() {
                size = size.saturating_add(condition_size(part));
            }
            size
        }
        Cond::Atom { .. } => 1,
        Cond::Same { .. } => 1,
    }
}

// The weight of what stands within, or of a leaf where nothing does.
fn or_leaf(leaf: u128, within: u128) -> u128
    ensures { result ≡ or_leaf leaf within }
{
    if within == 0 { leaf } else { within }
}

// The weights of the leaves of an effect, where those under no further conditions have this one.
fn all_leaves(leaf: u128, effect: &Eff) -> u128
    ensures { result ≡ capped (leaves_weight leaf (eff_view effect.now)) }
{
    match effect {
        Eff::All(parts) => {
            let mut within = 0u128;
            for part in parts.slice() {
                within = within.saturating_add(all_leaves(leaf, part));
            }
            or_leaf(leaf, within)
        }
        Eff::When(cond, body) => all_leaves(leaf.saturating_add(condition_size(cond)), body),
        Eff::Each(ranges, body) => {
            let number = binding_number(ranges.slice());
            or_leaf(leaf, number.saturating_mul(all_leaves(leaf, body)))
        }
        Eff::Atom { .. } => leaf,
    }
}

/// The weight of an instance of a schema.
pub fn schema_weight(schema: &Schema) -> u128
    ensures { result ≡ capped (weight (schema_view schema.now)) }
{
    condition_size(&schema.pre).saturating_add(all_leaves(1, &schema.effect))
}
