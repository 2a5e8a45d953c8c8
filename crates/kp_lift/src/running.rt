//! A list of actions is run with the merges that add something, as far as what it asks is known.
ghost use Rattle.std.specs.Prelude.{◌≡◌, ◌<◌, ◌+◌, true, length, nat_lt, IfOk};
ghost use Rattle.std.specs.List.{list_all};
ghost use Rattle.kp_base.specs.Implicates.{IsOfItsAtoms};
ghost use Rattle.kp_base.specs.Machine.{start};
ghost use Rattle.kp_lift.specs.Lifting.{IsTableOn};
ghost use Rattle.kp_lift.specs.Running.{IsAbout, StepEnds, EndsFrom, ActionsEnd};

use crate::merging::{reach_goal, take_merges};
use kp_base::{Ground, Lit, Memory, Row, TagTable};
use kp_lift_knowledge::Knowing;
use std::alloc::Global;

/// A step by its number from 0, or the goal by the number of all steps, and a literal there.
#[derive(Clone, Copy, Debug)]
pub(crate) struct At {
    pub(crate) step: u32,
    pub(crate) literal: Lit,
}

// Takes the merges, and then the action with this number, if its precondition is known: else the least literal that isn't.
fn take_step(
    knowing: &mut Knowing,
    operators: &mut Row<u32>,
    ground: &Ground,
    table: &TagTable,
    number: u32,
) -> Result<Option<Lit>, Memory>
    requires ground { IsOfItsAtoms ground.now }
    requires on { IsTableOn ground.now table.now }
    requires about { IsAbout ground.now table.now knowing.old }
    requires few { length ground.now.actions + length table.now.merges < 4294967296 }
    requires there { number < length ground.now.actions }
    ensures about { IsAbout ground.now table.now knowing.new }
    ensures ends { IfOk result (StepEnds ground.now table.now number knowing.old operators.old knowing.new operators.new) }
{
    take_merges(knowing, operators, ground, table)?;
    let action = ground.actions.at(number as usize);
    if let Some(literal) = knowing.first_unknown(action.pre.slice()) {
        return Ok(Some(literal));
    }
    operators.push(number)?;
    knowing.act(action);
    Ok(None)
}

// Takes the steps and the merges that add something, and notes their operators: where something isn't known in its turn.
fn take_steps(
    knowing: &mut Knowing,
    operators: &mut Row<u32>,
    ground: &Ground,
    table: &TagTable,
    steps: &[u32],
) -> Result<Option<At>, Memory>
    requires ground { IsOfItsAtoms ground.now }
    requires on { IsTableOn ground.now table.now }
    requires about { IsAbout ground.now table.now knowing.old }
    requires few { length ground.now.actions + length table.now.merges < 4294967296 }
    requires inside { list_all (λ n. nat_lt n (length ground.now.actions)) steps.now ≡ true }
    requires few_steps { length steps.now < 2147483648 }
    ensures ends { IfOk result (ActionsEnd ground.now table.now knowing.old steps.now operators.old operators.new) }
{
    for step in 0..steps.len() as u32 {
        if let Some(literal) = take_step(knowing, operators, ground, table, steps[step as usize])? {
            return Ok(Some(At { step, literal }));
        }
    }
    match reach_goal(knowing, operators, ground, table)? {
        Some(literal) => Ok(Some(At {
            step: steps.len() as u32,
            literal,
        })),
        None => Ok(None),
    }
}

/// Takes the steps and the merges from the start on, and notes their operators: where something isn't known in its turn.
pub(crate) fn run(
    alloc: Global,
    operators: &mut Row<u32>,
    ground: &Ground,
    table: &TagTable,
    steps: &[u32],
) -> Result<Option<At>, Memory>
    requires ground { IsOfItsAtoms ground.now }
    requires on { IsTableOn ground.now table.now }
    requires few { length ground.now.actions + length table.now.merges < 4294967296 }
    requires few_tags { length table.now.tags < 4294967296 }
    requires inside { list_all (λ n. nat_lt n (length ground.now.actions)) steps.now ≡ true }
    requires few_steps { length steps.now < 2147483648 }
    ensures { IfOk result (EndsFrom ground.now table.now (start table.now) steps.now 0 operators.old operators.new) }
{
    let mut knowing = Knowing::start(alloc, ground.atoms.len() as u32, table)?;
    let at = take_steps(&mut knowing, operators, ground, table, steps)?;
    drop(knowing);
    Ok(at)
}
