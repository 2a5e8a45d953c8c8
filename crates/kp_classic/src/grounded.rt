//! The task of a ground problem.
ghost use Rattle.std.specs.Prelude.{◌≡◌, ◌<◌, [], ◌∷◌, ◌++◌, true, map, length, IfOk, OnOk};
ghost use Rattle.std.specs.List.{list_all};
ghost use Rattle.kp_base.specs.Implicates.{are_below, IsOfItsAtoms};
ghost use Rattle.kp_classic.specs.Fits.{IsFit};
ghost use Rattle.kp_classic.specs.Grounded.{atoms_with, conds_of, effect_of, op_of, nameless, is_said, task_of, SaysOneState, DoesTheSame};
ghost use Rattle.kp_classic.specs.States.{holding_among};

use crate::said::said_facts;
use crate::{Conds, Op, OpEffect, Task};
use kp_base::{Action, Effect, Ground, GroundName, Initial, Lit, Memory, Row, Text};
use std::alloc::Global;

// Adds the literal's atom to the list, where the literal has this sign.
fn push_atom(lit: &Lit, sign: bool, atoms: &mut Row<u32>) -> Result<(), Memory>
    ensures { OnOk result (atoms.new ≡ atoms.old ++ atoms_with sign (lit.now ∷ [])) }
{
    if lit.positive == sign {
        atoms.push(lit.atom.0)?;
    }
    Ok(())
}

// The atoms of the literals with this sign.
fn atoms_with(alloc: Global, lits: &[Lit], sign: bool) -> Result<Row<u32>, Memory>
    ensures { IfOk result (λ atoms. atoms ≡ atoms_with sign lits.now) }
{
    let mut atoms = Row::new(alloc);
    for lit in lits {
        push_atom(lit, sign, &mut atoms)?;
    }
    Ok(atoms)
}

// Literals as conditions.
fn conds_of(alloc: Global, lits: &[Lit]) -> Result<Conds, Memory>
    ensures { IfOk result (λ conds. conds ≡ conds_of lits.now) }
{
    Ok(Conds {
        yes: atoms_with(alloc, lits, true)?,
        no: atoms_with(alloc, lits, false)?,
    })
}

// An effect as one on facts.
fn effect_of(alloc: Global, effect: &Effect) -> Result<OpEffect, Memory>
    ensures { IfOk result (λ e. e ≡ effect_of effect.now) }
{
    Ok(OpEffect {
        cond: conds_of(alloc, effect.cond.slice())?,
        fact: effect.result.atom.0,
        adds: effect.result.positive,
    })
}

// Effects as ones on facts.
fn effects_of(alloc: Global, effects: &[Effect]) -> Result<Row<OpEffect>, Memory>
    ensures { IfOk result (λ row. row ≡ map effect_of effects.now) }
{
    let mut row = Row::new(alloc);
    for effect in effects {
        row.push(effect_of(alloc, effect)?)?;
    }
    Ok(row)
}

// An action as an operator without a name.
fn op_of(alloc: Global, action: &Action) -> Result<Op, Memory>
    ensures { IfOk result (λ op. op ≡ op_of action.now) }
{
    Ok(Op {
        pre: conds_of(alloc, action.pre.slice())?,
        effects: effects_of(alloc, action.effects.slice())?,
        name: Text::new(alloc),
    })
}

// Actions as operators.
fn ops_of(alloc: Global, actions: &[Action]) -> Result<Row<Op>, Memory>
    ensures { IfOk result (λ row. row ≡ map op_of actions.now) }
{
    let mut row = Row::new(alloc);
    for action in actions {
        row.push(op_of(alloc, action)?)?;
    }
    Ok(row)
}

// An empty name for each of the atoms.
fn no_names(alloc: Global, atoms: &[GroundName]) -> Result<Row<Text>, Memory>
    ensures { IfOk result (λ row. row ≡ map nameless atoms.now) }
{
    let mut row = Row::new(alloc);
    for _atom in atoms {
        row.push(Text::new(alloc))?;
    }
    Ok(row)
}

// The names of the facts, and those that hold at the start.
fn facts_of(
    alloc: Global,
    ground: &Ground,
    initial: &Initial,
) -> Result<(Row<Text>, Row<u32>), Memory>
    requires few { length ground.now.atoms < 2147483648 }
    requires of_atoms { list_all (are_below (length ground.now.atoms)) initial.now.clauses ≡ true }
    ensures names { IfOk result (λ facts. facts.0 ≡ map nameless ground.now.atoms) }
    ensures init { IfOk result (λ facts. facts.1 ≡ holding_among (length ground.now.atoms) (is_said initial.now)) }
{
    let names = no_names(alloc, ground.atoms.slice())?;
    let init = said_facts(alloc, ground.atoms.len() as u32, initial)?;
    Ok((names, init))
}

// The goal and the operators.
fn steps_of(alloc: Global, ground: &Ground) -> Result<(Conds, Row<Op>), Memory>
    ensures goal { IfOk result (λ steps. steps.0 ≡ conds_of ground.now.goal) }
    ensures ops { IfOk result (λ steps. steps.1 ≡ map op_of ground.now.actions) }
{
    let goal = conds_of(alloc, ground.goal.slice())?;
    let ops = ops_of(alloc, ground.actions.slice())?;
    Ok((goal, ops))
}

/// The task of a ground problem with one initial state. Fact i is atom i, and operator i is action i, with its effects in
/// order: a positive result adds, and a negative one deletes. All names are empty.
pub fn task_of(alloc: Global, ground: &Ground, initial: &Initial) -> Result<Task, Memory>
    requires of_atoms { IsOfItsAtoms ground.now }
    requires one_state { SaysOneState (length ground.now.atoms) initial.now }
    ensures value { IfOk result (λ t. t ≡ task_of ground.now initial.now) }
    ensures fit { IfOk result IsFit }
    ensures same { IfOk result (DoesTheSame ground.now initial.now) }
{
    let (facts, init) = facts_of(alloc, ground, initial)?;
    let (goal, ops) = steps_of(alloc, ground)?;
    Ok(Task {
        facts,
        init,
        goal,
        ops,
    })
}
