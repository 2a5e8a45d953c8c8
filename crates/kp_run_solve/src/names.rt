//! Operators by name.
ghost use Rattle.std.specs.Prelude.{◌≡◌, ◌<◌, ◌++◌, ◌∷◌, [], Some, length, map, IfOk, OnOk};
ghost use Rattle.kp_base.specs.ActionNames.{action_name};
ghost use Rattle.kp_run_solve.specs.Operators.{acts_among};

use kp_base::{Ground, GroundName, Memory, Row, Text};
use std::alloc::Global;

// The same objects.
fn copy_objects(alloc: Global, objects: &[Text]) -> Result<Row<Text>, Memory>
    ensures { IfOk result (λ copies. copies ≡ objects.now) }
{
    let mut copies = Row::new(alloc);
    for object in objects {
        copies.push(object.copy(alloc)?)?;
    }
    Ok(copies)
}

// The same name.
fn copy_name(alloc: Global, name: &GroundName) -> Result<GroundName, Memory>
    ensures { IfOk result (λ copy. copy ≡ name.now) }
{
    let objects = copy_objects(alloc, name.objects.slice())?;
    let head = name.head.copy(alloc)?;
    Ok(GroundName { head, objects })
}

// Adds the name of an action.
fn put_action(
    alloc: Global,
    ground: &Ground,
    action: u32,
    names: &mut Row<GroundName>,
) -> Result<(), Memory>
    requires { action < length ground.now.actions }
    ensures { OnOk result (map Some names.new ≡ map Some names.old ++ action_name ground.now action ∷ []) }
{
    names.push(copy_name(alloc, &ground.actions.at(action as usize).name)?)
}

// Adds the name of an operator that is an action.
fn put_if_action(
    alloc: Global,
    ground: &Ground,
    operator: u32,
    names: &mut Row<GroundName>,
) -> Result<(), Memory>
    ensures { OnOk result (map Some names.new ≡ map Some names.old ++ map (action_name ground.now) (acts_among (length ground.now.actions) (operator ∷ []))) }
{
    if (operator as usize) < ground.actions.len() {
        put_action(alloc, ground, operator, names)?;
    }
    Ok(())
}

/// The names of the actions among operators.
pub fn actions_among(
    alloc: Global,
    ground: &Ground,
    operators: &[u32],
) -> Result<Row<GroundName>, Memory>
    ensures { IfOk result (λ names. map (action_name ground.now) (acts_among (length ground.now.actions) operators.now) ≡ map Some names) }
{
    let mut names = Row::new(alloc);
    for operator in operators {
        put_if_action(alloc, ground, *operator, &mut names)?;
    }
    Ok(names)
}
