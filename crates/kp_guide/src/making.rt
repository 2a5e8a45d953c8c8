//! The relaxation of a task.
ghost use Rattle.std.specs.Prelude.{◌≡◌, [], true, length, map, IfOk};
ghost use Rattle.kp_classic.specs.Fits.{are_below, IsFit};
ghost use Rattle.kp_guide.specs.Added.{rules_of, goal_of};
ghost use Rattle.kp_guide.specs.Relaxed.{at, IsRelaxationOf};
ghost use Rattle.kp_guide.specs.Placing.{ArePlacedTo, Grows};

use crate::Index;
use crate::adders::Adders;
use crate::places::places_of;
use crate::relaxation::Relaxation;
use crate::rules::once;
use indexmap::IndexSet;
use kp_base::{Memory, Row};
use kp_classic::Task;
use std::alloc::Global;

// The places of a task's goal.
#[tactic(auto, using(crate::proofs::Estimates::goal_fits))]
fn places_of_goal(alloc: Global, task: &Task, facts: &mut IndexSet<u32>) -> Result<Row<u32>, Memory>
    requires fits { IsFit task.now }
    requires none { facts.old.keys ≡ [] }
    ensures inside { IfOk result (λ goal. are_below (length facts.new.keys) goal ≡ true) }
    ensures are { IfOk result (λ goal. map (at facts.new.keys) goal ≡ goal_of task.now) }
    ensures below { IfOk result (λ goal. are_below (length task.now.facts) facts.new.keys ≡ true) }
{
    let goal = once(alloc, task.goal.yes.slice(), &[])?;
    let places = places_of(alloc, facts, goal.slice())?;
    Ok(places)
}

// The rules for some facts, and for those that they need.
fn index_on(alloc: Global, task: &Task, facts: &mut IndexSet<u32>) -> Result<Index, Memory>
    requires fits { IsFit task.now }
    requires below { are_below (length task.now.facts) facts.old.keys ≡ true }
    ensures long { IfOk result (λ index. length index.users.items ≡ length facts.new.keys) }
    ensures grows { IfOk result (λ index. Grows (rules_of task.now) facts.old.keys [] facts.new.keys index.rules.items) }
    ensures placed { IfOk result (λ index. ArePlacedTo (rules_of task.now) (length facts.new.keys) facts.new.keys index.rules.items) }
{
    let adders = Adders::of(alloc, task)?;
    let rules = adders.place_all(alloc, facts)?;
    Index::of(alloc, rules, facts.len())
}

impl Relaxation {
    /// That of a task.
    pub(crate) fn of(alloc: Global, task: &Task) -> Result<Relaxation, Memory>
        requires { IsFit task.now }
        ensures { IfOk result (IsRelaxationOf task.now) }
    {
        let mut facts = IndexSet::new(alloc);
        let goal = places_of_goal(alloc, task, &mut facts)?;
        let index = index_on(alloc, task, &mut facts)?;
        Ok(Relaxation { facts, goal, index })
    }
}
