//! Estimates by a relaxation.
ghost use Rattle.std.specs.Prelude.{◌≡◌, true, length, IfOk};
ghost use Rattle.kp_classic.specs.Fits.{are_below};
ghost use Rattle.kp_guide.specs.Added.{IsLeast};
ghost use Rattle.kp_guide.specs.Relaxed.{held};
ghost use Rattle.kp_guide.specs.CostTables.{AreSettled};

use crate::costs::{CAP, cost_of, costs_at_first};
use crate::relaxation::Relaxation;
use crate::settle::settle;
use kp_base::Memory;
use kp_classic::State;
use std::alloc::Global;

impl Relaxation {
    // The costs of all facts that have a place.
    fn costs(&self, alloc: Global, state: &State) -> Result<Vec<u32>, Memory>
        requires { are_below state.now.facts self.now.facts.keys ≡ true }
        ensures { IfOk result (λ costs. AreSettled self.now.index.rules.items (held self.now state.now) (length self.now.facts.keys) costs.items) }
    {
        let mut costs = costs_at_first(alloc, state, self.facts.as_slice())?;
        settle(alloc, &self.index, costs.as_mut_slice())?;
        Ok(costs)
    }

    /// What the goal costs in a state; `None` where it is out of reach.
    pub(crate) fn estimate(&self, alloc: Global, state: &State) -> Result<Option<u32>, Memory>
        requires { are_below state.now.facts self.now.facts.keys ≡ true }
        ensures { IfOk result (IsLeast self.now.index.rules.items (held self.now state.now) self.now.goal) }
    {
        let costs = self.costs(alloc, state)?;
        let cost = cost_of(&costs, self.goal.slice());
        if cost <= CAP {
            Ok(Some(cost))
        } else {
            Ok(None)
        }
    }
}
