//! The task of a ground problem.
ghost use Rattle.std.specs.Prelude.{◌≡◌, [], ◌∷◌, ◌++◌, IfOk, OnOk};
ghost use Rattle.kp_base.specs.LitSet.{with_lit};
ghost use Rattle.kp_classic.proofs.Public.{nameless_action, swap_action, swap_ground, swap_start};

use crate::given::row;
use crate::runs::reaches;
use kp_base::{
    Action, AtomId, Atoms, Effect, Ground, GroundName, Initial, Lit, LitSet, Memory, Row, Text,
};
use kp_classic::{Task, task_of};
use std::alloc::Global;
use std::test::Fail;

fn literal(number: u32, positive: bool) -> Lit
    ensures { result ≡ record { atom = record { 0 = number }; positive = positive } }
{
    Lit {
        atom: AtomId(number),
        positive,
    }
}

fn one(alloc: Global, lit: Lit) -> Result<LitSet, Memory>
    ensures { IfOk result (λ set. set ≡ lit ∷ []) }
{
    let mut set = LitSet::new(alloc);
    set.insert(lit)?;
    Ok(set)
}

fn two(alloc: Global, lit: Lit, other: Lit) -> Result<LitSet, Memory>
    ensures { IfOk result (λ set. set ≡ with_lit other (lit ∷ [])) }
{
    let mut set = one(alloc, lit)?;
    set.insert(other)?;
    Ok(set)
}

fn nameless_action(alloc: Global) -> GroundName
    ensures { result ≡ nameless_action }
{
    GroundName {
        head: Text::new(alloc),
        objects: Row::new(alloc),
    }
}

fn push_effect(effects: &mut Row<Effect>, cond: LitSet, lit: Lit) -> Result<(), Memory>
    ensures { OnOk result (effects.new ≡ effects.old ++ record { cond = cond; result = lit } ∷ []) }
{
    effects.push(Effect { cond, result: lit })?;
    Ok(())
}

fn effects(alloc: Global) -> Result<Row<Effect>, Memory>
    ensures { IfOk result (λ row. row ≡ swap_action.effects) }
{
    let mut row = Row::new(alloc);
    push_effect(&mut row, LitSet::new(alloc), literal(1, true))?;
    push_effect(&mut row, one(alloc, literal(1, true))?, literal(0, true))?;
    push_effect(&mut row, one(alloc, literal(0, true))?, literal(0, false))?;
    Ok(row)
}

// Where p holds and q doesn't, q comes, and p comes and goes.
fn action(alloc: Global) -> Result<Action, Memory>
    ensures { IfOk result (λ a. a ≡ swap_action) }
{
    let pre = two(alloc, literal(0, true), literal(1, false))?;
    let effects = effects(alloc)?;
    Ok(Action {
        name: nameless_action(alloc),
        pre,
        effects,
    })
}

fn actions(alloc: Global) -> Result<Row<Action>, Memory>
    ensures { IfOk result (λ row. row ≡ swap_ground.actions) }
{
    let mut row = Row::new(alloc);
    row.push(action(alloc)?)?;
    Ok(row)
}

fn atoms(alloc: Global) -> Result<Row<GroundName>, Memory>
    ensures { IfOk result (λ row. row ≡ swap_ground.atoms) }
{
    let mut row = Row::new(alloc);
    row.push(nameless_action(alloc))?;
    row.push(nameless_action(alloc))?;
    Ok(row)
}

fn ground(alloc: Global) -> Result<Ground, Memory>
    ensures { IfOk result (λ g. g ≡ swap_ground) }
{
    let actions = actions(alloc)?;
    let (atoms, goal) = (
        atoms(alloc)?,
        two(alloc, literal(1, true), literal(0, false))?,
    );
    Ok(Ground {
        atoms,
        table: Atoms::new(alloc),
        actions,
        goal,
    })
}

fn clauses(alloc: Global) -> Result<Row<LitSet>, Memory>
    ensures { IfOk result (λ row. row ≡ swap_start.clauses) }
{
    let mut row = Row::new(alloc);
    row.push(one(alloc, literal(0, true))?)?;
    Ok(row)
}

// p is stated, and q closed.
fn formula(alloc: Global) -> Result<Initial, Memory>
    ensures { IfOk result (λ i. i ≡ swap_start) }
{
    let clauses = clauses(alloc)?;
    let mut closed = Row::new(alloc);
    closed.push(AtomId(1))?;
    Ok(Initial { clauses, closed })
}

// The task of the ground problem.
#[tactic(auto, using(kp_classic::proofs::Public::swap_start_is_one_state))]
fn task(alloc: Global) -> Result<Task, Memory> {
    let ground = ground(alloc)?;
    let initial = formula(alloc)?;
    let task = task_of(alloc, &ground, &initial);
    drop(initial);
    drop(ground);
    task
}

// Whether it runs these operators and meets the goal.
fn plans(alloc: Global, steps: &[u32]) -> Result<Option<bool>, Memory> {
    let task = task(alloc)?;
    let ops = row(alloc, steps)?;
    let reached = reaches(alloc, &task, &ops);
    drop(ops);
    drop(task);
    reached
}

// One step reaches the goal, nothing to do doesn't, and a second step may not be taken.
#[test]
fn one_step_reaches_the_goal(rt: HostRuntime) -> Result<(), Fail> {
    assert!(rt; matches!(plans(rt.alloc(), &[0]), Ok(Some(true))));
    assert!(rt; matches!(plans(rt.alloc(), &[]), Ok(Some(false))));
    assert!(rt; matches!(plans(rt.alloc(), &[0, 0]), Ok(None)));
    Ok(())
}
