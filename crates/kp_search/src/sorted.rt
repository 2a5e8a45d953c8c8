//! The place of a state in the order of others.
ghost use Rattle.std.specs.Prelude.{◌≡◌, MatchResult};
ghost use Rattle.std.specs.List.{AllByRecursion};
ghost use Rattle.kp_classic.specs.States.{FactSet};
ghost use Rattle.kp_search.specs.Sorted.{IsGap, IsOrderOf, StandsAt};

use kp_classic::State;
use std::cmp::Ordering;

/// Where the state stands in the order of the others; else the gap into which it fits.
pub(crate) fn place_in(states: &[State], order: &[usize], state: &State) -> Result<usize, usize>
    requires alike { AllByRecursion (λ (s : FactSet). s.facts ≡ state.now.facts) states.now }
    requires order { IsOrderOf order.now states.now }
    ensures { MatchResult result (λ at. StandsAt states.now order.now at state.now) (λ gap. IsGap states.now order.now gap state.now) }
{
    let mut low = 0;
    let mut high = order.len();
    'halves: while low < high {
        let middle = low + (high - low) / 2;
        match states[order[middle]].order(state) {
            Ordering::Less => low = middle + 1,
            Ordering::Equal => return Ok(middle),
            Ordering::Greater => high = middle,
        }
    }
    Err(low)
}
