//! Tables of the costs of facts.
ghost use Rattle.std.specs.Prelude.{◌≡◌, ◌<◌, ◌≤◌, true, length, map, IfOk};
ghost use Rattle.kp_classic.specs.Fits.{are_below};
ghost use Rattle.kp_classic.specs.States.{has};
ghost use Rattle.kp_guide.specs.CostTables.{are_costs, first_cost, joined, total};

use kp_base::Memory;
use kp_classic::State;
use std::alloc::Global;

/// What stands for the cost of a fact that isn't reached.
pub(crate) const NONE: u32 = 1_000_000_001;

/// The greatest cost that is told.
pub(crate) const CAP: u32 = 1_000_000_000;

/// The sum of two costs; none where one of them is none.
pub(crate) fn join(a: u32, b: u32) -> u32
    requires low { a ≤ 1000000001 }
    requires low_too { b ≤ 1000000001 }
    ensures { result ≡ joined a b }
{
    if a <= CAP && b <= CAP {
        if a + b <= CAP { a + b } else { CAP }
    } else {
        NONE
    }
}

/// The sum of the costs of some facts.
#[tactic(auto, using(crate::proofs::Joins::joined_assoc, crate::proofs::Joins::joined_zero, crate::proofs::Joins::zero_joined, crate::proofs::Joins::joined_low, crate::proofs::Joins::total_low, crate::proofs::Joins::none_left))]
pub(crate) fn cost_of(costs: &[u32], facts: &[u32]) -> u32
    requires costs { are_costs costs.now ≡ true }
    requires fits { are_below (length costs.now) facts.now ≡ true }
    ensures { result ≡ total costs.now facts.now }
{
    let mut all = 0;
    for f in facts {
        if all > CAP {
            return NONE;
        }
        all = join(all, costs[*f as usize]);
    }
    all
}

// What a fact costs at first.
fn cost_at_first(state: &State, fact: u32) -> u32
    requires { fact < state.now.facts }
    ensures { result ≡ first_cost (has state.now.hold) fact }
{
    if state.holds(fact) { 0 } else { NONE }
}

/// What some facts cost at first.
pub(crate) fn costs_at_first(
    alloc: Global,
    state: &State,
    facts: &[u32],
) -> Result<Vec<u32>, Memory>
    requires { are_below state.now.facts facts.now ≡ true }
    ensures { IfOk result (λ costs. costs.items ≡ map (first_cost (has state.now.hold)) facts.now) }
{
    let mut costs = Vec::with_capacity(alloc, facts.len())?;
    for fact in facts {
        costs.push(cost_at_first(state, *fact))?;
    }
    Ok(costs)
}
