ghost use Rattle.std.specs.Prelude.{◌≡◌, ◌<◌, [], map, true, length, IfOk, OnOk};
ghost use Rattle.std.specs.List.{flat_map, list_all};
ghost use Rattle.kp_names.specs.View.{schema_view, lifted_view};
ghost use Rattle.kp_ground_semantics.specs.Ground.{instance_literals, kept_instances};
ghost use Rattle.kp_ground.specs.Gathered.{gather};
ghost use Rattle.kp_ground_instances.specs.Counts.{kept_view};
ghost use Rattle.kp_ground.specs.Passes.{has_schema, literals_at, noted, AnswersAtoms};

use crate::effect_atoms::EffectAtoms;
use crate::gathering::add_items;
use crate::literals::add_literals;
use bumpalo::Bump;
use kp_base::{Atoms, Memory, Refused, Stop};
use kp_ground_flatten::{hand_over, left_of};
use kp_ground_instances::{Kept, Statics};
use kp_names::Schema;
use std::alloc::Global;

// Adds the atoms of a schema with these objects.
fn add_schema(
    bump: &mut Bump,
    alloc: Global,
    statics: &Statics,
    objects: &[u32],
    schema: &Schema,
    into: &mut EffectAtoms,
) -> Result<(), Memory>
    ensures limit { OnOk result (into.new.limit ≡ into.old.limit) }
    ensures atoms { OnOk result (into.new.atoms ≡ gather into.old.limit into.old.atoms (instance_literals (lifted_view statics.now) (schema_view schema.now) objects.now)) }
{
    let pre = left_of(bump, alloc, statics, objects, &schema.pre)?;
    add_literals(alloc, into.limit, &mut into.atoms, pre.slice())?;
    hand_over(bump, alloc, statics, objects, &schema.effect, into)?;
    Ok(())
}

// Adds the atoms of an instance.
fn add_instance(
    bump: &mut Bump,
    alloc: Global,
    statics: &Statics,
    one: &Kept,
    into: &mut EffectAtoms,
) -> Result<(), Memory>
    requires { one.now.schema < length (lifted_view statics.now).schemas }
    ensures limit { OnOk result (into.new.limit ≡ into.old.limit) }
    ensures atoms { OnOk result (into.new.atoms ≡ gather into.old.limit into.old.atoms (literals_at (lifted_view statics.now) (kept_view one.now))) }
{
    let schema = statics.lifted().schemas.at(one.schema as usize);
    add_schema(bump, alloc, statics, one.objects.slice(), schema, into)?;
    Ok(())
}

// Adds the atoms of some instances, until there are more atoms than the limit.
fn add_kept(
    bump: &mut Bump,
    alloc: Global,
    statics: &Statics,
    kept: &[Kept],
    into: &mut EffectAtoms,
) -> Result<(), Memory>
    requires { list_all (has_schema (lifted_view statics.now)) (map kept_view kept.now) ≡ true }
    ensures { OnOk result (into.new.atoms ≡ gather into.old.limit into.old.atoms (flat_map (literals_at (lifted_view statics.now)) (map kept_view kept.now))) }
{
    for one in kept {
        if into.limit < into.atoms.len() {
            return Ok(());
        }
        add_instance(bump, alloc, statics, one, into)?;
    }
    Ok(())
}

// Adds the atoms of some instances, whose trees lie in an arena that is given up behind each.
fn add_instances(
    alloc: Global,
    statics: &Statics,
    kept: &[Kept],
    into: &mut EffectAtoms,
) -> Result<(), Memory>
    requires { list_all (has_schema (lifted_view statics.now)) (map kept_view kept.now) ≡ true }
    ensures { OnOk result (into.new.atoms ≡ gather into.old.limit into.old.atoms (flat_map (literals_at (lifted_view statics.now)) (map kept_view kept.now))) }
{
    let mut bump = Bump::new(alloc);
    add_kept(&mut bump, alloc, statics, kept, into)
}

// The atoms of the goal, of `:init` without static predicates, and of the kept instances, until there are more than the limit.
fn gathered(alloc: Global, statics: &Statics, kept: &[Kept], limit: u32) -> Result<Atoms, Memory>
    requires { map kept_view kept.now ≡ kept_instances (lifted_view statics.now) }
    ensures { IfOk result (λ atoms. atoms ≡ gather limit [] (noted (lifted_view statics.now))) }
{
    let lifted = statics.lifted();
    let mut atoms = Atoms::new(alloc);
    add_literals(alloc, limit, &mut atoms, lifted.goal.slice())?;
    add_items(alloc, statics, limit, &mut atoms, lifted.init.slice())?;
    let mut into = EffectAtoms { atoms, limit };
    add_instances(alloc, statics, kept, &mut into)?;
    Ok(into.atoms)
}

/// The ground atoms in order, or the refusal where there are more than the limit.
pub fn occurring_atoms(
    alloc: Global,
    statics: &Statics,
    kept: &[Kept],
    limit: u32,
) -> Result<Atoms, Stop>
    requires { map kept_view kept.now ≡ kept_instances (lifted_view statics.now) }
    ensures { AnswersAtoms (lifted_view statics.now) limit result }
{
    let mut atoms = gathered(alloc, statics, kept, limit)?;
    if limit < atoms.len() {
        return Err(Stop::Refused(Refused::AtomsOver));
    }
    atoms.sort()?;
    Ok(atoms)
}
