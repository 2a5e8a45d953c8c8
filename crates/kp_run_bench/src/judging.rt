//! The actions of a plan, and whether they work.
ghost use Rattle.std.specs.Prelude.{◌≡◌, ◌<◌, ◌++◌, ◌∷◌, [], true, length, nat_lt, IfOk, OnOk};
ghost use Rattle.std.specs.List.{list_all};
ghost use Rattle.kp_primes.specs.Held.{formula};
ghost use Rattle.kp_check.specs.Judging.{IsVerdict};
ghost use Rattle.kp_run_solve.specs.Operators.{acts_among};

use kp_base::{Ground, Memory, Row};
use kp_check::{Judged, check};
use kp_run_prepare::Prepared;
use std::alloc::Global;

// Adds an operator that is an action.
fn put_if_action(ground: &Ground, operator: u32, numbers: &mut Row<u32>) -> Result<(), Memory>
    ensures { OnOk result (numbers.new ≡ numbers.old ++ acts_among (length ground.now.actions) (operator ∷ [])) }
{
    if (operator as usize) < ground.actions.len() {
        numbers.push(operator)?;
    }
    Ok(())
}

/// The actions among operators, by number.
pub fn actions_among(alloc: Global, ground: &Ground, operators: &[u32]) -> Result<Row<u32>, Memory>
    ensures { IfOk result (λ numbers. numbers ≡ acts_among (length ground.now.actions) operators.now) }
{
    let mut numbers = Row::new(alloc);
    for operator in operators {
        put_if_action(ground, *operator, &mut numbers)?;
    }
    Ok(numbers)
}

/// Whether actions work from every initial state, which is checked. So many as 2,147,483,648 are want of memory.
pub fn judge(alloc: Global, prepared: &Prepared, numbers: &Row<u32>) -> Result<Judged, Memory>
    requires { list_all (λ m. nat_lt m (length prepared.now.ground.actions)) numbers.now ≡ true }
    ensures { IfOk result (IsVerdict prepared.now.primes.atoms prepared.now.ground (formula prepared.now.primes) numbers.now) }
{
    if numbers.len() >= 2_147_483_648 {
        return Err(Memory);
    }
    let judged = check(alloc, &prepared.ground, &prepared.primes, numbers)?;
    Ok(judged)
}
