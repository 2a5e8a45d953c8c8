ghost use Rattle.std.specs.Prelude.{◌≡◌, map, IfOk};
ghost use Rattle.kp_names.specs.View.{lifted_view};
ghost use Rattle.kp_ground_semantics.specs.Ground.{kept_instances, ground_over, atom_name, numbered_set, IsNumbering};
ghost use Rattle.kp_ground_instances.specs.Counts.{kept_view};
ghost use Rattle.kp_ground.specs.Grounded.{AnswersGround};

use crate::actions::all_actions;
use crate::names::names_of_atoms;
use crate::occurring::occurring_atoms;
use kp_base::{Atoms, Ground, GroundName, Limits, LitSet, Memory, Row, Stop};
use kp_ground_instances::{Kept, Statics};
use kp_ground_joins::kept_instances;
use kp_ground_semantics::literal_set;
use kp_names::Lifted;
use std::alloc::Global;

// The names of the atoms, and the goal by their numbers.
fn names_and_goal(
    alloc: Global,
    lifted: &Lifted,
    atoms: &Atoms,
) -> Result<(Row<GroundName>, LitSet), Memory>
    ensures names { IfOk result (λ p. p.0 ≡ map (atom_name (lifted_view lifted.now)) atoms.now) }
    ensures goal { IfOk result (λ p. p.1 ≡ numbered_set atoms.now (lifted_view lifted.now).goal) }
{
    let names = names_of_atoms(alloc, lifted, atoms.keys())?;
    let goal = literal_set(alloc, atoms, lifted.goal.slice())?;
    Ok((names, goal))
}

// The ground problem over these atoms.
fn over_atoms(
    alloc: Global,
    statics: &Statics,
    atoms: Atoms,
    kept: &[Kept],
) -> Result<Ground, Memory>
    requires numbering { IsNumbering (lifted_view statics.now) atoms }
    requires kept { map kept_view kept.now ≡ kept_instances (lifted_view statics.now) }
    ensures { IfOk result (λ g. g ≡ ground_over (lifted_view statics.now) atoms) }
{
    let named = names_and_goal(alloc, statics.lifted(), &atoms)?;
    let actions = all_actions(alloc, statics, &atoms, kept)?;
    Ok(Ground {
        atoms: named.0,
        table: atoms,
        actions,
        goal: named.1,
    })
}

// The ground problem of a problem by number whose static predicates are known.
fn ground_by(alloc: Global, statics: &Statics, limits: &Limits) -> Result<Ground, Stop>
    ensures { AnswersGround (lifted_view statics.now) limits.now result }
{
    let kept = kept_instances(alloc, statics, limits)?;
    let atoms = occurring_atoms(alloc, statics, kept.slice(), limits.atoms)?;
    let made = over_atoms(alloc, statics, atoms, kept.slice())?;
    Ok(made)
}

/// The ground problem of a problem by number, or the refusal where it is larger than a limit allows.
pub fn ground(alloc: Global, lifted: &Lifted, limits: &Limits) -> Result<Ground, Stop>
    ensures { AnswersGround (lifted_view lifted.now) limits.now result }
{
    let statics = Statics::of(alloc, lifted)?;
    let made = ground_by(alloc, &statics, limits)?;
    Ok(made)
}
