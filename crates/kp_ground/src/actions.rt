ghost use Rattle.std.specs.Prelude.{◌≡◌, ◌<◌, map, length, Some, IfOk};
ghost use Rattle.kp_base.specs.Lists.{Member};
ghost use Rattle.kp_names.specs.View.{schema_view, lifted_view};
ghost use Rattle.kp_ground_instances.specs.Counts.{kept_view};
ghost use Rattle.kp_ground_semantics.specs.Flattening.{flat_of};
ghost use Rattle.kp_ground_semantics.specs.Ground.{numbered_effect, lasting, kept_instances, ground_pre, ground_effects, IsNumbering};
ghost use Rattle.kp_ground.specs.Passes.{name_with, action_at, IsKnown};

use crate::lasting::lasting_effects;
use crate::names::names_of_objects;
use crate::numbered::Numbering;
use bumpalo::Bump;
use kp_base::{Action, Atoms, Effect, GroundName, LitSet, Memory, Row};
use kp_ground_flatten::{hand_over, left_of};
use kp_ground_instances::{Kept, Statics};
use kp_ground_semantics::literal_set;
use kp_names::{Lifted, Schema};
use std::alloc::Global;

// The precondition of a schema with these objects, by number.
fn pre_by_number(
    bump: &mut Bump,
    alloc: Global,
    statics: &Statics,
    atoms: &Atoms,
    objects: &[u32],
    schema: &Schema,
) -> Result<LitSet, Memory>
    ensures { IfOk result (λ pre. pre ≡ ground_pre (lifted_view statics.now) atoms.now (schema_view schema.now) objects.now) }
{
    let left = left_of(bump, alloc, statics, objects, &schema.pre)?;
    let pre = literal_set(alloc, atoms, left.slice())?;
    Ok(pre)
}

// The effects of a schema with these objects, by number, each once.
fn effects_by_number(
    bump: &mut Bump,
    alloc: Global,
    statics: &Statics,
    atoms: &Atoms,
    objects: &[u32],
    schema: &Schema,
) -> Result<Row<Effect>, Memory>
    requires { IsKnown (lifted_view statics.now) atoms.now (schema_view schema.now) objects.now }
    ensures { IfOk result (λ row. row ≡ map (numbered_effect atoms.now) (flat_of (lifted_view statics.now) (schema_view schema.now) objects.now).effects) }
{
    let mut numbering = Numbering::new(alloc, atoms);
    hand_over(
        bump,
        alloc,
        statics,
        objects,
        &schema.effect,
        &mut numbering,
    )?;
    let row = numbering.into_row(alloc)?;
    Ok(row)
}

// Those of them that last beside this precondition.
fn effects_beside(
    bump: &mut Bump,
    alloc: Global,
    statics: &Statics,
    atoms: &Atoms,
    pre: &LitSet,
    objects: &[u32],
    schema: &Schema,
) -> Result<Row<Effect>, Memory>
    requires { IsKnown (lifted_view statics.now) atoms.now (schema_view schema.now) objects.now }
    ensures { IfOk result (λ row. row ≡ lasting pre.now (map (numbered_effect atoms.now) (flat_of (lifted_view statics.now) (schema_view schema.now) objects.now).effects)) }
{
    let effects = effects_by_number(bump, alloc, statics, atoms, objects, schema)?;
    lasting_effects(alloc, pre, effects)
}

// The action of this name of a schema with these objects.
fn named(
    bump: &mut Bump,
    alloc: Global,
    statics: &Statics,
    atoms: &Atoms,
    name: GroundName,
    objects: &[u32],
    schema: &Schema,
) -> Result<Action, Memory>
    requires { IsKnown (lifted_view statics.now) atoms.now (schema_view schema.now) objects.now }
    ensures name { IfOk result (λ a. a.name ≡ name) }
    ensures pre { IfOk result (λ a. a.pre ≡ ground_pre (lifted_view statics.now) atoms.now (schema_view schema.now) objects.now) }
    ensures effects { IfOk result (λ a. a.effects ≡ ground_effects (lifted_view statics.now) atoms.now (schema_view schema.now) objects.now) }
{
    let pre = pre_by_number(bump, alloc, statics, atoms, objects, schema)?;
    let effects = effects_beside(bump, alloc, statics, atoms, &pre, objects, schema)?;
    Ok(Action { name, pre, effects })
}

// The name of an instance.
fn name_of(alloc: Global, lifted: &Lifted, one: &Kept) -> Result<GroundName, Memory>
    requires { one.now.schema < length lifted.now.schemas }
    ensures { IfOk result (λ name. name_with (lifted_view lifted.now) one.now.schema one.now.objects ≡ Some name) }
{
    let schema = lifted.schemas.at(one.schema as usize);
    Ok(GroundName {
        head: schema.name.copy(alloc)?,
        objects: names_of_objects(alloc, lifted, one.objects.slice())?,
    })
}

// The action of an instance.
fn action(
    bump: &mut Bump,
    alloc: Global,
    statics: &Statics,
    atoms: &Atoms,
    one: &Kept,
) -> Result<Action, Memory>
    requires numbering { IsNumbering (lifted_view statics.now) atoms.now }
    requires kept { Member (kept_instances (lifted_view statics.now)) (kept_view one.now) }
    ensures { IfOk result (λ a. a ≡ action_at (lifted_view statics.now) atoms.now (kept_view one.now)) }
{
    let lifted = statics.lifted();
    let name = name_of(alloc, lifted, one)?;
    let schema = lifted.schemas.at(one.schema as usize);
    let action = named(
        bump,
        alloc,
        statics,
        atoms,
        name,
        one.objects.slice(),
        schema,
    )?;
    Ok(action)
}

/// The actions of the kept instances.
pub fn all_actions(
    alloc: Global,
    statics: &Statics,
    atoms: &Atoms,
    kept: &[Kept],
) -> Result<Row<Action>, Memory>
    requires numbering { IsNumbering (lifted_view statics.now) atoms.now }
    requires kept { map kept_view kept.now ≡ kept_instances (lifted_view statics.now) }
    ensures { IfOk result (λ row. row ≡ map (action_at (lifted_view statics.now) atoms.now) (map kept_view kept.now)) }
{
    let mut bump = Bump::new(alloc);
    let mut row = Row::new(alloc);
    for one in kept {
        row.push(action(&mut bump, alloc, statics, atoms, one)?)?;
    }
    Ok(row)
}
