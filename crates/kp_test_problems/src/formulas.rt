//! Initial formulas and their prime implicates.

use crate::literals::{Sign, sets};
use kp_base::{AtomId, Initial, Memory, Row, Stop};
use kp_primes::{Primes, is_of_atoms};
use std::alloc::Global;

fn atoms(alloc: Global, numbers: &[u32]) -> Result<Row<AtomId>, Memory> {
    let mut row = Row::new(alloc);
    for number in numbers {
        row.push(AtomId(*number))?;
    }
    Ok(row)
}

/// The formula of these clauses and closed atoms.
pub fn formula(alloc: Global, clauses: &[&[Sign]], closed: &[u32]) -> Result<Initial, Memory> {
    let clauses = sets(alloc, clauses)?;
    let closed = atoms(alloc, closed)?;
    Ok(Initial { clauses, closed })
}

/// The prime implicates of a formula over so many atoms, within a limit on how many there are.
pub fn primes_within(
    alloc: Global,
    initial: &Initial,
    atoms: u32,
    limit: u32,
) -> Result<Primes, Stop> {
    if !is_of_atoms(initial, atoms) {
        return Err(Stop::Memory);
    }
    Primes::build(alloc, initial, atoms, limit)
}

/// The prime implicates of these clauses and closed atoms, over so many atoms; a thousand of them at most.
pub fn primes(
    alloc: Global,
    clauses: &[&[Sign]],
    closed: &[u32],
    atoms: u32,
) -> Result<Primes, Stop> {
    let initial = formula(alloc, clauses, closed)?;
    let primes = primes_within(alloc, &initial, atoms, 1000);
    drop(initial);
    primes
}
