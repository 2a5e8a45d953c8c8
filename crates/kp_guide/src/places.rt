//! Facts by their places among others.
ghost use Rattle.std.specs.Prelude.{[], ◌∷◌, IfOk};
ghost use Rattle.kp_guide.specs.Placing.{ArePlaces};

use indexmap::IndexSet;
use kp_base::{Memory, Row};
use std::alloc::Global;

// The place of a fact, which goes last where it is new. A place that is no `u32` is want of memory.
#[tactic(auto, using(crate::proofs::Placing::one_placed))]
fn place_of(facts: &mut IndexSet<u32>, fact: u32) -> Result<u32, Memory>
    ensures { IfOk result (λ place. ArePlaces (fact ∷ []) facts.old.keys facts.new.keys (place ∷ [])) }
{
    let (place, _) = facts.insert_full(fact)?;
    match u32::try_from(place) {
        Ok(place) => Ok(place),
        Err(_) => Err(Memory),
    }
}

/// The places of some facts; those that are new go last.
#[tactic(auto, using(crate::proofs::Placing::none_placed))]
pub(crate) fn places_of(
    alloc: Global,
    facts: &mut IndexSet<u32>,
    some: &[u32],
) -> Result<Row<u32>, Memory>
    ensures { IfOk result (ArePlaces some.now facts.old.keys facts.new.keys) }
{
    let mut places = Row::new(alloc);
    for fact in some {
        places.push(place_of(facts, *fact)?)?;
    }
    Ok(places)
}
