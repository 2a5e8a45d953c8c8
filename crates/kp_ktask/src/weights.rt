ghost use Rattle.std.specs.Prelude.{◌≡◌, ◌+◌, ◌*◌, ◌-◌, ◌^◌, min, length, sum_by};
ghost use Rattle.kp_law_ktask.specs.Weight.{both_weight, action_weight, merge_weight, counted_weight};

use kp_base::{Action, Effect, Ground, Merge, TagTable};

// The weight of an effect's support and cancellation.
fn both_weight(effect: &Effect) -> u128
    ensures { result ≡ both_weight effect.now }
{
    2 * (1 + effect.cond.slice().len() as u128)
}

// Counts end at the greatest number, which is above every limit.
fn effects_weight(effects: &[Effect]) -> u128
    ensures { result ≡ min (sum_by both_weight effects.now) (2 ^ 128 - 1) }
{
    let mut weight = 0u128;
    for effect in effects {
        weight = weight.saturating_add(both_weight(effect));
    }
    weight
}

fn action_weight(tags: u128, action: &Action) -> u128
    ensures { result ≡ min (action_weight tags action.now) (2 ^ 128 - 1) }
{
    let effects = tags.saturating_mul(effects_weight(action.effects.slice()));
    (action.pre.slice().len() as u128).saturating_add(effects)
}

fn actions_weight(tags: u128, actions: &[Action]) -> u128
    ensures { result ≡ min (sum_by (action_weight tags) actions.now) (2 ^ 128 - 1) }
{
    let mut weight = 0u128;
    for action in actions {
        weight = weight.saturating_add(action_weight(tags, action));
    }
    weight
}

fn merges_weight(merges: &[Merge]) -> u128
    ensures { result ≡ min (sum_by merge_weight merges.now) (2 ^ 128 - 1) }
{
    let mut weight = 0u128;
    for merge in merges {
        weight = weight.saturating_add(merge.tags.len() as u128 + 1);
    }
    weight
}

/// How many facts the task has.
pub fn fact_count(ground: &Ground, table: &TagTable) -> u128
    ensures { result ≡ min (length table.now.tags * (2 * length ground.now.atoms)) (2 ^ 128 - 1) }
{
    (table.tags.len() as u128).saturating_mul(2 * ground.atoms.len() as u128)
}

/// The weight of the task.
pub fn task_weight(ground: &Ground, table: &TagTable) -> u128
    ensures { result ≡ min (counted_weight ground.now table.now) (2 ^ 128 - 1) }
{
    let actions = actions_weight(table.tags.len() as u128, ground.actions.slice());
    actions.saturating_add(merges_weight(table.merges.slice()))
}
