ghost use Rattle.std.specs.Prelude.{◌≡◌, ◌<◌, length, slice_get, IfOk};
ghost use Rattle.kp_base.specs.LitSet.{IsAscending};
ghost use Rattle.kp_primes_first_model.specs.Ordered.{state_of_atoms};
ghost use Rattle.kp_base.specs.Steps.{pre_of};
ghost use Rattle.kp_check.specs.FailingValues.{decided, first_no, failure_in, state_values, AscendsAt};

use crate::steps::Walk;
use crate::values::truth_at;
use kp_base::{AtomId, Ground, Lit, Memory};
use kp_primes_first_model::Truth;
use std::alloc::Global;

/// A step by its number from 0, or the goal by the number of all steps, and a literal there.
#[derive(Clone, Copy, Debug, PartialEq, Eq)]
pub struct At {
    /// The number.
    pub step: u32,
    /// The literal.
    pub literal: Lit,
}

// The first of some literals that is false.
fn first_no(values: &[Truth], lits: &[Lit]) -> Option<Lit>
    ensures { result ≡ first_no values.now lits.now }
{
    for lit in lits {
        if let Truth::No = truth_at(values, *lit) {
            return Some(*lit);
        }
    }
    None
}

// Whether the atom is one of these.
fn is_one(present: &[AtomId], atom: u32) -> bool
    ensures { result ≡ state_of_atoms present.now atom }
{
    present.iter().any(|a| a.0 == atom)
}

fn decided(so: bool) -> Truth
    ensures { result ≡ decided so }
{
    if so { Truth::Yes } else { Truth::No }
}

/// The values of the first atoms in the state in which these are true.
pub fn state_values(alloc: Global, atoms: u32, present: &[AtomId]) -> Result<Vec<Truth>, Memory>
    ensures { IfOk result (λ values. values.items ≡ state_values atoms present.now) }
{
    let mut values = Vec::new(alloc);
    for p in 0..atoms {
        values.push(decided(is_one(present, p)))?;
    }
    Ok(values)
}

/// What must hold before a step. Nothing, where there is no such action.
pub fn pre(ground: &Ground, number: u32) -> &[Lit]
    ensures value { result.now ≡ pre_of (slice_get ground.now.actions number) }
    ensures ascending { IsAscending result.now }
{
    match ground.actions.slice().get(number as usize) {
        Some(action) => action.pre.slice(),
        None => &[],
    }
}

/// Where the steps fail, from a state in which the atoms have these values.
pub fn failure_in(
    alloc: Global,
    ground: &Ground,
    steps: &[u32],
    from: Vec<Truth>,
) -> Result<Option<At>, Memory>
    requires { length steps.now < 2147483648 }
    ensures place { IfOk result (λ at. at ≡ failure_in ground.now from.items steps.now 0) }
    ensures ascending { IfOk result (AscendsAt ground.now steps.now) }
{
    let mut walk = Walk::from(alloc, from);
    let mut count = 0u32;
    for number in steps {
        if let Some(literal) = first_no(&walk.values, pre(ground, *number)) {
            return Ok(Some(At {
                step: count,
                literal,
            }));
        }
        walk.step(ground, *number)?;
        count += 1;
    }
    match first_no(&walk.values, ground.goal.slice()) {
        Some(literal) => Ok(Some(At {
            step: count,
            literal,
        })),
        None => Ok(None),
    }
}
