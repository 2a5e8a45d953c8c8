use crate::limits::{CELLS, ONE_IS_FULL};
use crate::reading::resolved;
use kp_base::{AtomId, Initial, Limits, Lit, LitSet, Memory, Row, Stop};
use kp_ground::ground;
use kp_init::initial;
use kp_primes::{Primes, is_of_atoms};
use std::alloc::Global;

// The initial formula of two short texts, where they have one.
fn formula_of(alloc: Global, domain: &str, problem: &str) -> Result<Initial, Stop> {
    let lifted = resolved(alloc, domain, problem)?;
    let ground = ground(alloc, &lifted, &Limits::usual())?;
    let formula = initial(alloc, &lifted, &ground);
    drop(ground);
    drop(lifted);
    Ok(formula?)
}

// The set of these atoms, each with its sign.
fn set_of(alloc: Global, lits: &[(u32, bool)]) -> Result<LitSet, Memory> {
    let mut set = LitSet::new(alloc);
    for (number, positive) in lits {
        set.insert(Lit {
            atom: AtomId(*number),
            positive: *positive,
        })?;
    }
    Ok(set)
}

fn sets_of(alloc: Global, sets: &[&[(u32, bool)]]) -> Result<Row<LitSet>, Memory> {
    let mut row = Row::new(alloc);
    for lits in sets {
        row.push(set_of(alloc, lits)?)?;
    }
    Ok(row)
}

// Some of three atoms holds, and then for each two of them, that they don't both hold; none is closed.
fn one_of_three(alloc: Global) -> Result<Initial, Memory> {
    let clauses = sets_of(
        alloc,
        &[
            &[(0, true), (1, true), (2, true)],
            &[(0, false), (1, false)],
            &[(0, false), (2, false)],
            &[(1, false), (2, false)],
        ],
    )?;
    Ok(Initial {
        clauses,
        closed: Row::new(alloc),
    })
}

fn is_one_of_three(alloc: Global, formula: &Initial) -> Result<bool, Memory> {
    Ok(*formula == one_of_three(alloc)?)
}

// Whether the closure of one set is another.
fn closes(
    alloc: Global,
    primes: &Primes,
    lits: &[(u32, bool)],
    wanted: &[(u32, bool)],
) -> Result<bool, Memory> {
    let lits = set_of(alloc, lits)?;
    let wanted = set_of(alloc, wanted)?;
    Ok(primes.closure(alloc, &lits)? == Some(wanted))
}

fn has_no_closure(alloc: Global, primes: &Primes, lits: &[(u32, bool)]) -> Result<bool, Memory> {
    let lits = set_of(alloc, lits)?;
    Ok(primes.closure(alloc, &lits)?.is_none())
}

// With the first, the two others aren't full; two can't be full together.
fn closes_cells(alloc: Global, formula: &Initial) -> Result<bool, Stop> {
    if !is_of_atoms(formula, 3) {
        return Ok(false);
    }
    let primes = Primes::build(alloc, formula, 3, 20_000)?;
    let first = closes(
        alloc,
        &primes,
        &[(0, true)],
        &[(0, true), (1, false), (2, false)],
    );
    let two = has_no_closure(alloc, &primes, &[(0, true), (1, true)]);
    drop(primes);
    Ok(first? && two?)
}

// Whether it is the formula of just one full cell.
fn is_of_cells(alloc: Global, formula: &Initial) -> bool {
    matches!(is_one_of_three(alloc, formula), Ok(true))
        && matches!(closes_cells(alloc, formula), Ok(true))
}

// Three cells of which one is full.
#[test]
fn one_full_cell(rt: HostRuntime) {
    let alloc = rt.alloc();
    let formula = formula_of(alloc, CELLS, ONE_IS_FULL);
    let is_of_cells = matches!(&formula, Ok(formula) if is_of_cells(alloc, formula));
    drop(formula);
    assert!(rt; is_of_cells);
}
