//! Least costs by the rules of a task: each rule that may lower a cost waits, is tried, and where it lowers one, those rules
//! wait that need the fact and lack no other.
ghost use Rattle.std.specs.Prelude.{◌≡◌, ◌<◌, [], ◌∷◌, true, false, length, replicate, IfOk, OnOk};
ghost use Rattle.std.specs.List.{range_with_len};
ghost use Rattle.kp_base.specs.Lists.{only_if};
ghost use Rattle.kp_classic.specs.Fits.{are_below};
ghost use Rattle.kp_guide.specs.CostTables.{IsClosed, Lowers, Relaxes, are_costs, fits_rule};
ghost use Rattle.kp_guide.specs.Waiting.{AreCounts, AreEnough, CountsDown, IsReady, IsWork, Rounds, Tries, Waits, unreached};

use crate::costs::{CAP, cost_of, join};
use crate::index::count_down;
use crate::{Index, Rule};
use kp_base::Memory;
use std::alloc::Global;
use std::mem::swap;

// Lowers the cost of the rule's fact, where the rule reaches it for less; whether it did.
fn relax(rule: &Rule, costs: &mut [u32]) -> bool
    requires costs { are_costs costs.old ≡ true }
    requires fits { fits_rule (length costs.old) rule.now ≡ true }
    ensures { Relaxes rule.now costs.old result costs.new }
{
    let cost = join(1, cost_of(costs, rule.needs.slice()));
    if cost < costs[rule.fact as usize] {
        costs[rule.fact as usize] = cost;
        return true;
    }
    false
}

// Lets a rule wait, unless it does or lacks a need.
#[tactic(auto, using(crate::proofs::Waiting::waits_still, crate::proofs::Waiting::waits_now))]
fn wait(
    number: usize,
    counts: &[usize],
    waits: &mut [bool],
    next: &mut Vec<usize>,
) -> Result<(), Memory>
    requires number { number < length waits.old }
    requires counts { length counts.now ≡ length waits.old }
    ensures { OnOk result (Waits counts.now (number ∷ []) waits.old next.old.items waits.new next.new.items) }
{
    if counts[number] > 0 || waits[number] {
        return Ok(());
    }
    next.push(number)?;
    waits[number] = true;
    Ok(())
}

// Lets those of some rules wait that lack no need.
#[tactic(auto, using(crate::proofs::Waiting::waits_none))]
fn wait_all(
    numbers: &[usize],
    counts: &[usize],
    waits: &mut [bool],
    next: &mut Vec<usize>,
) -> Result<(), Memory>
    requires numbers { are_below (length waits.old) numbers.now ≡ true }
    requires counts { length counts.now ≡ length waits.old }
    ensures { OnOk result (Waits counts.now numbers.now waits.old next.old.items waits.new next.new.items) }
{
    for number in numbers {
        wait(*number, counts, waits, next)?;
    }
    Ok(())
}

// Lowers the counts of the rules that need a fact, where it is reached for the first time.
#[tactic(auto, using(crate::proofs::Noting::counts_none))]
fn count_first(first: bool, users: &[usize], counts: &mut [usize])
    requires users { are_below (length counts.old) users.now ≡ true }
    requires enough { AreEnough (only_if first users.now) counts.old }
    ensures { CountsDown (only_if first users.now) counts.old counts.new }
{
    if first {
        count_down(users, counts);
    }
}

// A fact's cost fell: counts and lets wait the rules that need it.
fn tell(
    first: bool,
    users: &[usize],
    counts: &mut [usize],
    waits: &mut [bool],
    next: &mut Vec<usize>,
) -> Result<(), Memory>
    requires users { are_below (length waits.old) users.now ≡ true }
    requires counts { length counts.old ≡ length waits.old }
    requires enough { AreEnough (only_if first users.now) counts.old }
    ensures counted { OnOk result (CountsDown (only_if first users.now) counts.old counts.new) }
    ensures waiting { OnOk result (Waits counts.new users.now waits.old next.old.items waits.new next.new.items) }
{
    count_first(first, users, counts);
    wait_all(users, counts, waits, next)?;
    Ok(())
}

// Tries a rule, which waits no more.
#[tactic(auto, using(crate::proofs::Waiting::rule_fits, crate::proofs::Waiting::row_below))]
fn try_rule(
    index: &Index,
    number: usize,
    costs: &mut [u32],
    counts: &mut [usize],
    waits: &mut [bool],
    next: &mut Vec<usize>,
) -> Result<(), Memory>
    requires work { IsWork index.now.rules.items (length index.now.users.items) costs.old counts.old waits.old next.old.items }
    requires number { number < length index.now.rules.items }
    ensures { OnOk result (Tries index.now.rules.items (length index.now.users.items) number costs.old counts.old waits.old next.old.items costs.new counts.new waits.new next.new.items) }
{
    let rule = &index.rules[number];
    waits[number] = false;
    let first = costs[rule.fact as usize] > CAP;
    if relax(rule, costs) {
        tell(
            first,
            index.users[rule.fact as usize].slice(),
            counts,
            waits,
            next,
        )?;
    }
    Ok(())
}

// Tries all rules that wait, and puts down those that wait then.
#[tactic(auto, using(crate::proofs::Waiting::round_begins, crate::proofs::Waiting::round_next))]
fn round(
    index: &Index,
    costs: &mut [u32],
    counts: &mut [usize],
    waits: &mut [bool],
    now: &[usize],
    next: &mut Vec<usize>,
) -> Result<(), Memory>
    requires work { IsWork index.now.rules.items (length index.now.users.items) costs.old counts.old waits.old [] }
    requires known { are_below (length index.now.rules.items) now.now ≡ true }
    requires ready { IsReady index.now.rules.items costs.old waits.old now.now }
    requires none { next.old.items ≡ [] }
    ensures { OnOk result (Rounds index.now.rules.items (length index.now.users.items) costs.old costs.new counts.new waits.new [] next.new.items) }
{
    for number in now {
        try_rule(index, *number, costs, counts, waits, next)?;
    }
    Ok(())
}

// Goes round until none waits.
#[tactic(auto, using(crate::proofs::Waiting::round_ends, crate::proofs::Relaxing::lowers_none))]
fn rounds(
    alloc: Global,
    index: &Index,
    costs: &mut [u32],
    counts: &mut [usize],
    waits: &mut [bool],
    first: Vec<usize>,
) -> Result<(), Memory>
    requires work { IsWork index.now.rules.items (length index.now.users.items) costs.old counts.old waits.old first.items }
    requires ready { IsReady index.now.rules.items costs.old waits.old first.items }
    ensures lowers { OnOk result (Lowers index.now.rules.items costs.old costs.new) }
    ensures closed { OnOk result (IsClosed index.now.rules.items costs.new) }
{
    let mut now = first;
    let mut next = Vec::new(alloc);
    'rounds: while !now.is_empty() {
        next.clear();
        round(index, costs, counts, waits, &now, &mut next)?;
        swap(&mut now, &mut next);
    }
    Ok(())
}

// Lets those of all rules wait that lack no need, and answers them.
#[tactic(auto, using(crate::proofs::Waiting::waits_none, crate::proofs::Waiting::first_on))]
fn first_waiting(alloc: Global, counts: &[usize], waits: &mut [bool]) -> Result<Vec<usize>, Memory>
    requires { length counts.now ≡ length waits.old }
    ensures { IfOk result (λ next. Waits counts.now (range_with_len 0 (length counts.now)) waits.old [] waits.new next.items) }
{
    let mut next = Vec::new(alloc);
    for number in 0..counts.len() {
        wait(number, counts, waits, &mut next)?;
    }
    Ok(next)
}

// Lets the first rules wait, and goes round.
#[tactic(auto, using(crate::proofs::Waiting::first_work, crate::proofs::Waiting::first_ready))]
fn begin(
    alloc: Global,
    index: &Index,
    costs: &mut [u32],
    counts: &mut [usize],
    waits: &mut [bool],
) -> Result<(), Memory>
    requires costs { are_costs costs.old ≡ true }
    requires long { length costs.old ≡ length index.now.users.items }
    requires counts { AreCounts index.now.rules.items (unreached costs.old) counts.old }
    requires none { waits.old ≡ replicate (length index.now.rules.items) false }
    ensures lowers { OnOk result (Lowers index.now.rules.items costs.old costs.new) }
    ensures closed { OnOk result (IsClosed index.now.rules.items costs.new) }
{
    let first = first_waiting(alloc, counts, waits)?;
    rounds(alloc, index, costs, counts, waits, first)
}

// Lowers the costs until no rule lowers one, given how many needs of each rule have no cost.
fn settle_counted(
    alloc: Global,
    index: &Index,
    costs: &mut [u32],
    counts: &mut [usize],
) -> Result<(), Memory>
    requires costs { are_costs costs.old ≡ true }
    requires long { length costs.old ≡ length index.now.users.items }
    requires counts { AreCounts index.now.rules.items (unreached costs.old) counts.old }
    ensures lowers { OnOk result (Lowers index.now.rules.items costs.old costs.new) }
    ensures closed { OnOk result (IsClosed index.now.rules.items costs.new) }
{
    let mut waits = vec![in alloc; false; index.rules.len()]?;
    let done = begin(alloc, index, costs, counts, &mut waits);
    drop(waits);
    done
}

/// Lowers the costs until no rule lowers one.
pub(crate) fn settle(alloc: Global, index: &Index, costs: &mut [u32]) -> Result<(), Memory>
    requires costs { are_costs costs.old ≡ true }
    requires long { length costs.old ≡ length index.now.users.items }
    ensures lowers { OnOk result (Lowers index.now.rules.items costs.old costs.new) }
    ensures closed { OnOk result (IsClosed index.now.rules.items costs.new) }
{
    let mut counts = index.counts(alloc, costs)?;
    let done = settle_counted(alloc, index, costs, &mut counts);
    drop(counts);
    done
}
