//! The rules of a task by the facts that they add, and those of them that the goal may need.
ghost use Rattle.std.specs.Prelude.{◌≡◌, ◌<◌, [], ◌∷◌, Some, true, length, slice_get, IfOk, OnOk};
ghost use Rattle.std.specs.List.{list_all};
ghost use Rattle.kp_classic.specs.Fits.{are_below, IsFit};
ghost use Rattle.kp_guide.specs.Added.{rules_of};
ghost use Rattle.kp_guide.specs.Placing.{AddThere, AreAdders, ArePlacedTo, Grows, HaveAll};
ghost use Rattle.kp_guide.specs.Relaxed.{AreRead};
ghost use Rattle.kp_guide.specs.CostTables.{fits_rule};
ghost use Rattle.kp_guide.specs.Waiting.{row};

use crate::Rule;
use crate::places::places_of;
use crate::rows::{empty_rows, put};
use crate::rules::rules_of;
use indexmap::IndexSet;
use kp_base::{Memory, Row};
use kp_classic::Task;
use std::alloc::Global;

/// The rules of a task, and for each fact the numbers of those that add it.
#[derive(Drop)]
pub(crate) struct Adders {
    rules: Vec<Rule>,
    rows: Vec<Row<usize>>,
    ghost fit: { list_all (fits_rule (length rows.items)) rules.items ≡ true },
    ghost listed: { AreAdders rules.items (length rules.items) rows.items },
}

// For each of so many facts the rules that add it.
#[tactic(auto, using(crate::proofs::Listed::adders_none))]
fn rows_of(alloc: Global, rules: &[Rule], facts: usize) -> Result<Vec<Row<usize>>, Memory>
    requires { list_all (fits_rule facts) rules.now ≡ true }
    ensures long { IfOk result (λ rows. length rows.items ≡ facts) }
    ensures listed { IfOk result (λ rows. AreAdders rules.now (length rules.now) rows.items) }
{
    let mut rows = empty_rows(alloc, facts)?;
    for number in 0..rules.len() {
        put(&mut rows, rules[number].fact, number)?;
    }
    Ok(rows)
}

impl Adders {
    /// Those of a task.
    #[tactic(auto, using(crate::proofs::Estimates::rules_fit))]
    pub(crate) fn of(alloc: Global, task: &Task) -> Result<Adders, Memory>
        requires { IsFit task.now }
        ensures rules { IfOk result (λ a. a.rules.items ≡ rules_of task.now) }
        ensures long { IfOk result (λ a. length a.rows.items ≡ length task.now.facts) }
    {
        let rules = rules_of(alloc, task)?;
        let rows = rows_of(alloc, &rules, task.facts.len())?;
        Ok(Adders { rules, rows })
    }

    // Places the rule with a number.
    fn place_rule(
        &self,
        alloc: Global,
        number: usize,
        place: u32,
        facts: &mut IndexSet<u32>,
        rules: &mut Vec<Rule>,
    ) -> Result<(), Memory>
        requires read { AreRead self.now.rules.items facts.old.keys rules.old.items }
        requires number { number < length self.now.rules.items }
        requires adds { AddThere self.now.rules.items (number ∷ []) facts.old.keys place }
        ensures grows { OnOk result (Grows self.now.rules.items facts.old.keys rules.old.items facts.new.keys rules.new.items) }
        ensures has { OnOk result (HaveAll self.now.rules.items (number ∷ []) facts.new.keys rules.new.items place) }
    {
        let needs = places_of(alloc, facts, self.rules[number].needs.slice())?;
        rules.push(Rule { fact: place, needs })?;
        Ok(())
    }

    // Places the rules for a fact.
    fn place_adders(
        &self,
        alloc: Global,
        fact: u32,
        place: u32,
        facts: &mut IndexSet<u32>,
        rules: &mut Vec<Rule>,
    ) -> Result<(), Memory>
        requires read { AreRead self.now.rules.items facts.old.keys rules.old.items }
        requires fact { fact < length self.now.rows.items }
        requires there { slice_get facts.old.keys place ≡ Some fact }
        ensures grows { OnOk result (Grows self.now.rules.items facts.old.keys rules.old.items facts.new.keys rules.new.items) }
        ensures has { OnOk result (HaveAll self.now.rules.items (row self.now.rows.items fact) facts.new.keys rules.new.items place) }
    {
        for number in self.rows[fact as usize].slice() {
            self.place_rule(alloc, *number, place, facts, rules)?;
        }
        Ok(())
    }

    /// The rules for some facts, and for the facts that they need, which get places behind those.
    pub(crate) fn place_all(
        &self,
        alloc: Global,
        facts: &mut IndexSet<u32>,
    ) -> Result<Vec<Rule>, Memory>
        requires few { length self.now.rows.items < 2147483648 }
        requires below { are_below (length self.now.rows.items) facts.old.keys ≡ true }
        ensures grows { IfOk result (λ rules. Grows self.now.rules.items facts.old.keys [] facts.new.keys rules.items) }
        ensures placed { IfOk result (λ rules. ArePlacedTo self.now.rules.items (length facts.new.keys) facts.new.keys rules.items) }
    {
        let mut rules = Vec::new(alloc);
        let mut place = 0u32;
        'places: while (place as usize) < facts.len() {
            let fact = facts.as_slice()[place as usize];
            self.place_adders(alloc, fact, place, facts, &mut rules)?;
            place += 1;
        }
        Ok(rules)
    }
}
