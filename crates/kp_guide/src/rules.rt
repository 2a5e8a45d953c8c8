//! The rules of a task.
ghost use Rattle.std.specs.Prelude.{◌≡◌, ◌++◌, fold, nat_eq, IfOk, OnOk};
ghost use Rattle.kp_base.specs.Lists.{each_once};
ghost use Rattle.kp_guide.specs.Added.{rules_of, rules_of_effect, rules_of_op};
ghost use Rattle.kp_guide.specs.CostTables.{with_fact};

use crate::Rule;
use indexmap::IndexSet;
use kp_base::{Memory, Row};
use kp_classic::{Op, OpEffect, Task};
use std::alloc::Global;

// Adds the facts that are not there.
fn add_new(facts: &mut IndexSet<u32>, more: &[u32]) -> Result<(), Memory>
    ensures { OnOk result (facts.new.keys ≡ fold with_fact facts.old.keys more.now) }
{
    for fact in more {
        facts.insert(*fact)?;
    }
    Ok(())
}

/// The facts of both lists, each once.
#[tactic(auto, using(crate::proofs::Estimates::once_of))]
pub(crate) fn once(alloc: Global, first: &[u32], second: &[u32]) -> Result<Row<u32>, Memory>
    ensures { IfOk result (λ row. row ≡ each_once nat_eq (first.now ++ second.now)) }
{
    let mut facts = IndexSet::new(alloc);
    add_new(&mut facts, first)?;
    add_new(&mut facts, second)?;
    Ok(Row::from_vec(facts.as_slice().to_vec(alloc)?))
}

// Adds the rule of an effect, where it adds.
fn push_rule(alloc: Global, rules: &mut Vec<Rule>, op: &Op, effect: &OpEffect) -> Result<(), Memory>
    ensures { OnOk result (rules.new.items ≡ rules.old.items ++ rules_of_effect op.now effect.now) }
{
    if !effect.adds {
        return Ok(());
    }
    let needs = once(alloc, op.pre.yes.slice(), effect.cond.yes.slice())?;
    rules.push(Rule {
        fact: effect.fact,
        needs,
    })?;
    Ok(())
}

// Adds the rules of an operator.
#[tactic(auto, using(std::proofs::lemmas::List::append_assoc))]
fn push_rules(alloc: Global, rules: &mut Vec<Rule>, op: &Op) -> Result<(), Memory>
    ensures { OnOk result (rules.new.items ≡ rules.old.items ++ rules_of_op op.now) }
{
    for effect in op.effects.slice() {
        push_rule(alloc, rules, op, effect)?;
    }
    Ok(())
}

/// The rules of a task.
#[tactic(auto, using(std::proofs::lemmas::List::append_assoc))]
pub(crate) fn rules_of(alloc: Global, task: &Task) -> Result<Vec<Rule>, Memory>
    ensures { IfOk result (λ rules. rules.items ≡ rules_of task.now) }
{
    let mut rules = Vec::new(alloc);
    for op in task.ops.slice() {
        push_rules(alloc, &mut rules, op)?;
    }
    Ok(rules)
}
