//! What is answered on steps.
ghost use Rattle.std.specs.Prelude.{◌≡◌, nat_lt};
ghost use Rattle.std.specs.List.{list_all};

use kp_base::{Ground, Memory, Row, Stop};
use kp_check::{Judged, check};
use kp_primes::Primes;
use kp_test_problems::{Sign, are_atoms, is_literal, is_of_its_atoms, primes};
use std::alloc::Global;

fn are_steps(steps: &[u32], actions: usize) -> bool
    ensures { result ≡ list_all (λ m. nat_lt m actions) steps.now }
{
    steps.iter().all(|m| (*m as usize) < actions)
}

fn row_of(alloc: Global, numbers: &[u32]) -> Result<Row<u32>, Memory> {
    Ok(Row::from_vec(numbers.to_vec(alloc)?))
}

fn judge(
    alloc: Global,
    ground: &Ground,
    primes: &Primes,
    steps: &Row<u32>,
) -> Result<Judged, Memory> {
    if ground.atoms.len() != primes.atoms() as usize || !is_of_its_atoms(ground) {
        return Err(Memory);
    }
    if !are_steps(steps.slice(), ground.actions.len()) || steps.len() >= 2_147_483_648 {
        return Err(Memory);
    }
    check(alloc, ground, primes, steps)
}

// What is answered on these steps, with the prime implicates of the initial states.
fn judged_by(
    alloc: Global,
    ground: &Ground,
    primes: &Primes,
    steps: &[u32],
) -> Result<Judged, Memory> {
    let steps = row_of(alloc, steps)?;
    let judged = judge(alloc, ground, primes, &steps);
    drop(steps);
    judged
}

fn judged_on(
    alloc: Global,
    ground: &Ground,
    atoms: u32,
    stated: &[&[Sign]],
    steps: &[u32],
) -> Result<Judged, Stop> {
    let primes = primes(alloc, stated, &[], atoms)?;
    let judged = judged_by(alloc, ground, &primes, steps);
    drop(primes);
    Ok(judged?)
}

/// What is answered on these steps, where this is stated of the initial states.
pub(crate) fn judged(
    alloc: Global,
    ground: Ground,
    atoms: u32,
    stated: &[&[Sign]],
    steps: &[u32],
) -> Result<Judged, Stop> {
    let judged = judged_on(alloc, &ground, atoms, stated, steps);
    drop(ground);
    judged
}

// ---- answers

pub(crate) fn is_yes(judged: &Result<Judged, Stop>) -> bool {
    matches!(judged, Ok(Judged::Yes))
}

/// Whether the first state has these atoms, and this step is told, from 0, and this literal.
pub(crate) fn is_no(judged: &Result<Judged, Stop>, atoms: &[u32], place: u32, told: Sign) -> bool {
    match judged {
        Ok(
            Judged::No {
                state,
                step,
                literal,
            },
        ) => { are_atoms(state.slice(), atoms) && *step == place && is_literal(*literal, told) }
        _ => false,
    }
}
