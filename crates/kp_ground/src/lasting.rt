ghost use Rattle.std.specs.Prelude.{◌≡◌, ◌∷◌, [], ◌++◌, not, ◌&&◌, map, IfOk, OnOk};
ghost use Rattle.std.specs.List.{list_any};
ghost use Rattle.kp_base.specs.Lists.{only_if};
ghost use Rattle.kp_base.specs.Steps.{has};
ghost use Rattle.kp_base.specs.Implicates.{is_within};
ghost use Rattle.kp_ground_semantics.specs.Ground.{lasting};
ghost use Rattle.kp_ground.specs.Adds.{adds_at, covered};

use crate::adds::Adds;
use kp_base::{Effect, Lit, LitSet, Memory, Row};
use std::alloc::Global;

// Whether the literal is in one of two sets.
fn in_either(one: &LitSet, other: &LitSet, lit: Lit) -> bool
    ensures { result ≡ has (one.now ++ other.now) lit }
{
    one.has(lit) || other.has(lit)
}

// Whether each literal is in one of two sets.
fn within_either(lits: &LitSet, one: &LitSet, other: &LitSet) -> bool
    ensures { result ≡ is_within lits.now (one.now ++ other.now) }
{
    lits.slice().iter().all(|lit| in_either(one, other, *lit))
}

// Whether one of these adds asks for nothing beyond the effect's condition and the precondition.
fn covers(adds: &[&Effect], pre: &LitSet, effect: &Effect) -> bool
    ensures { result ≡ covered pre.now effect.now (map (λ add. add.now) adds.now) }
{
    for add in adds {
        if within_either(&add.cond, &effect.cond, pre) {
            return true;
        }
    }
    false
}

// Whether an add of the effect's atom does.
fn is_covered(adds: &Adds, pre: &LitSet, effect: &Effect) -> bool
    ensures { result ≡ covered pre.now effect.now (adds_at adds.now effect.now.result.atom.0) }
{
    match adds.of_atom(effect.result.atom.0) {
        Some(row) => covers(row.slice(), pre, effect),
        None => false,
    }
}

fn copied(alloc: Global, effect: &Effect) -> Result<Effect, Memory>
    ensures { IfOk result (λ copy. copy ≡ effect.now) }
{
    Ok(Effect {
        cond: effect.cond.copy(alloc)?,
        result: effect.result,
    })
}

// Adds a copy of the effect, unless it is an idle delete.
fn keep(
    alloc: Global,
    adds: &Adds,
    pre: &LitSet,
    effect: &Effect,
    row: &mut Row<Effect>,
) -> Result<(), Memory>
    ensures { OnOk result (row.new ≡ row.old ++ only_if (not (not effect.now.result.positive && covered pre.now effect.now (adds_at adds.now effect.now.result.atom.0))) (effect.now ∷ [])) }
{
    if !effect.result.positive && is_covered(adds, pre, effect) {
        return Ok(());
    }
    row.push(copied(alloc, effect)?)
}

// The effects without idle deletes.
fn without_idle(alloc: Global, pre: &LitSet, effects: &[Effect]) -> Result<Row<Effect>, Memory>
    ensures { IfOk result (λ row. row ≡ lasting pre.now effects.now) }
{
    let adds = Adds::of(alloc, effects)?;
    let mut row = Row::new(alloc);
    for effect in effects {
        keep(alloc, &adds, pre, effect, &mut row)?;
    }
    Ok(row)
}

// Whether some effect is a delete.
fn some_delete(effects: &[Effect]) -> bool
    ensures { result ≡ list_any (λ effect. not effect.result.positive) effects.now }
{
    effects.iter().any(|effect| !effect.result.positive)
}

/// The effects without idle deletes. Where there are no deletes, no table of adds is made.
pub fn lasting_effects(
    alloc: Global,
    pre: &LitSet,
    effects: Row<Effect>,
) -> Result<Row<Effect>, Memory>
    ensures { IfOk result (λ row. row ≡ lasting pre.now effects) }
{
    if !some_delete(effects.slice()) {
        return Ok(effects);
    }
    without_idle(alloc, pre, effects.slice())
}
