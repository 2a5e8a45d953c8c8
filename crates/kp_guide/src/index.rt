//! Rules, with those that need each fact.
ghost use Rattle.std.specs.Prelude.{◌≡◌, ◌<◌, ◌+◌, true, length, IfOk, OnOk};
ghost use Rattle.std.specs.List.{list_all};
ghost use Rattle.kp_classic.specs.Fits.{are_below};
ghost use Rattle.kp_guide.specs.CostTables.{fits_rule};
ghost use Rattle.kp_guide.specs.Waiting.{AreCounts, AreEnough, AreUsers, CountsDown, Notes, needs_of, unreached, unreached_before};

use crate::Rule;
use crate::costs::CAP;
use crate::rows::{empty_rows, put};
use kp_base::{Memory, Row};
use std::alloc::Global;

/// Rules, and for each fact the numbers of those that need it.
#[derive(Drop)]
pub(crate) struct Index {
    pub(crate) rules: Vec<Rule>,
    pub(crate) users: Vec<Row<usize>>,
    ghost fit: { list_all (fits_rule (length users.items)) rules.items ≡ true },
    ghost listed: { AreUsers rules.items (length rules.items) users.items },
}

// Adds a number to the rows of some facts.
#[tactic(auto, using(crate::proofs::Noting::notes_none))]
fn note_all(users: &mut [Row<usize>], facts: &[u32], number: usize) -> Result<(), Memory>
    requires { are_below (length users.old) facts.now ≡ true }
    ensures { OnOk result (Notes facts.now number users.old users.new) }
{
    for fact in facts {
        put(users, *fact, number)?;
    }
    Ok(())
}

// For each of so many facts the rules that need it.
#[tactic(auto, using(crate::proofs::Noting::users_none))]
fn users_of(alloc: Global, rules: &[Rule], facts: usize) -> Result<Vec<Row<usize>>, Memory>
    requires { list_all (fits_rule facts) rules.now ≡ true }
    ensures long { IfOk result (λ users. length users.items ≡ facts) }
    ensures listed { IfOk result (λ users. AreUsers rules.now (length rules.now) users.items) }
{
    let mut users = empty_rows(alloc, facts)?;
    for number in 0..rules.len() {
        note_all(&mut users, rules[number].needs.slice(), number)?;
    }
    Ok(users)
}

/// Lowers the counts of some rules, by one for each time that a rule is named.
#[tactic(auto, using(crate::proofs::Noting::counts_none, crate::proofs::Noting::counts_on))]
pub(crate) fn count_down(numbers: &[usize], counts: &mut [usize])
    requires numbers { are_below (length counts.old) numbers.now ≡ true }
    requires enough { AreEnough numbers.now counts.old }
    ensures { CountsDown numbers.now counts.old counts.new }
{
    for number in numbers {
        counts[*number] -= 1;
    }
}

// How much each rule needs.
fn needs_of(alloc: Global, rules: &[Rule]) -> Result<Vec<usize>, Memory>
    ensures { IfOk result (λ counts. counts.items ≡ needs_of rules.now) }
{
    let mut counts = Vec::new(alloc);
    for rule in rules {
        counts.push(rule.needs.len())?;
    }
    Ok(counts)
}

// Where a fact has a cost, lowers the counts of the rules that need it.
#[tactic(auto, using(crate::proofs::Noting::counts_reached, crate::proofs::Noting::counts_unreached))]
fn count_fact(index: &Index, fact: usize, costs: &[u32], counts: &mut [usize])
    requires fact { fact < length costs.now }
    requires long { length costs.now ≡ length index.now.users.items }
    requires counts { AreCounts index.now.rules.items (unreached_before costs.now fact) counts.old }
    ensures { AreCounts index.now.rules.items (unreached_before costs.now (fact + 1)) counts.new }
{
    if costs[fact] <= CAP {
        count_down(index.users[fact].slice(), counts);
    }
}

// Lowers the counts for all facts that have a cost.
#[tactic(auto, using(crate::proofs::Noting::counts_begin, crate::proofs::Noting::counts_end))]
fn count_facts(index: &Index, costs: &[u32], counts: &mut [usize])
    requires long { length costs.now ≡ length index.now.users.items }
    requires counts { counts.old ≡ needs_of index.now.rules.items }
    ensures { AreCounts index.now.rules.items (unreached costs.now) counts.new }
{
    for fact in 0..costs.len() {
        count_fact(index, fact, costs, counts);
    }
}

impl Index {
    /// These rules, on so many facts.
    pub(crate) fn of(alloc: Global, rules: Vec<Rule>, facts: usize) -> Result<Index, Memory>
        requires fit { list_all (fits_rule facts) rules.items ≡ true }
        ensures rules { IfOk result (λ i. i.rules.items ≡ rules.items) }
        ensures long { IfOk result (λ i. length i.users.items ≡ facts) }
    {
        let users = users_of(alloc, &rules, facts)?;
        Ok(Index { rules, users })
    }

    /// How many needs of each rule have no cost.
    pub(crate) fn counts(&self, alloc: Global, costs: &[u32]) -> Result<Vec<usize>, Memory>
        requires { length costs.now ≡ length self.now.users.items }
        ensures { IfOk result (λ counts. AreCounts self.now.rules.items (unreached costs.now) counts.items) }
    {
        let mut counts = needs_of(alloc, &self.rules)?;
        count_facts(self, costs, &mut counts);
        Ok(counts)
    }
}
