//! The merges that add something are taken, before a step and before the goal.
ghost use Rattle.std.specs.Prelude.{◌≡◌, ◌<◌, ◌+◌, [], ◌∷◌, ◌++◌, true, length, nat_lt, OnOk, IfOk};
ghost use Rattle.std.specs.List.{list_all};
ghost use Rattle.kp_base.specs.Lists.{only_if};
ghost use Rattle.kp_base.specs.Implicates.{IsOfItsAtoms};
ghost use Rattle.kp_base.specs.Machine.{Known};
ghost use Rattle.kp_lift_knowledge.specs.Known.{IsLike, Says};
ghost use Rattle.kp_law_tagged_machine.specs.Lifts.{adds, after_merges};
ghost use Rattle.kp_lift.specs.Lifting.{IsTableOn};
ghost use Rattle.kp_lift.specs.Running.{IsAbout, MergesTaken, GoalEnds};

use kp_base::{Ground, Lit, Memory, Merge, Row, TagTable};
use kp_lift_knowledge::Knowing;

// Takes a merge, if it is allowed and adds something, and notes its operator then.
fn take_merge(
    knowing: &mut Knowing,
    operators: &mut Row<u32>,
    merge: &Merge,
    operator: u32,
) -> Result<(), Memory>
    requires some_tag { 0 < knowing.old.tags }
    requires target { merge.now.target.atom.0 < knowing.old.atoms }
    requires tags { list_all (λ t. nat_lt t knowing.old.tags) merge.now.tags ≡ true }
    ensures like { IsLike knowing.new knowing.old }
    ensures known { (k : Known) → Says knowing.old k → Says knowing.new (after_merges (merge.now ∷ []) k) }
    ensures operators { (k : Known) → Says knowing.old k → OnOk result (operators.new ≡ operators.old ++ only_if (adds merge.now k) (operator ∷ [])) }
{
    if !knowing.merge(merge) {
        return Ok(());
    }
    operators.push(operator)?;
    Ok(())
}

/// Takes each merge that is allowed and adds something, in order. Their operators stand behind those of the actions.
pub(crate) fn take_merges(
    knowing: &mut Knowing,
    operators: &mut Row<u32>,
    ground: &Ground,
    table: &TagTable,
) -> Result<(), Memory>
    requires on { IsTableOn ground.now table.now }
    requires about { IsAbout ground.now table.now knowing.old }
    requires few { length ground.now.actions + length table.now.merges < 4294967296 }
    ensures about { IsAbout ground.now table.now knowing.new }
    ensures taken { OnOk result (MergesTaken ground.now table.now knowing.old operators.old knowing.new operators.new) }
{
    let actions = ground.actions.len() as u32;
    for m in 0..table.merges.len() as u32 {
        take_merge(knowing, operators, table.merges.at(m as usize), actions + m)?;
    }
    Ok(())
}

/// Takes the merges behind the last step: the least literal of the goal that isn't known then.
pub(crate) fn reach_goal(
    knowing: &mut Knowing,
    operators: &mut Row<u32>,
    ground: &Ground,
    table: &TagTable,
) -> Result<Option<Lit>, Memory>
    requires ground { IsOfItsAtoms ground.now }
    requires on { IsTableOn ground.now table.now }
    requires about { IsAbout ground.now table.now knowing.old }
    requires few { length ground.now.actions + length table.now.merges < 4294967296 }
    ensures ends { IfOk result (GoalEnds ground.now table.now knowing.old operators.old operators.new) }
{
    take_merges(knowing, operators, ground, table)?;
    Ok(knowing.first_unknown(ground.goal.slice()))
}
