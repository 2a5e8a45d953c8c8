//! What the tests ask: the tables of merges, and of modes, on two problems.

use kp_base::{Ground, Limits, Memory, Row, Stop, TagTable};
use kp_primes::Primes;
use kp_relevance::Relevance;
use kp_tags::{FileMerge, Mode, accept_merges, make, tags_are_of_atoms};
use kp_test_problems::{
    Change, LEFT, ONE_OF_THREE, Sign, is_of_its_atoms, literal, primes, sets, single,
};
use std::alloc::Global;

// Of p, r and g: g comes true, with an effect for each way in which p and r may be.
const EACH_WAY: [Change<'static>; 4] = [
    (&[(0, true), (1, true)], (2, true)),
    (&[(0, true), (1, false)], (2, true)),
    (&[(0, false), (1, true)], (2, true)),
    (&[(0, false), (1, false)], (2, true)),
];

// ---- merges of a file

// Each merge is of the first cell.
fn file(alloc: Global, merges: &[&[&[Sign]]]) -> Result<Row<FileMerge>, Memory> {
    let mut row = Row::new(alloc);
    for tags in merges {
        row.push(FileMerge {
            target: literal((0, true)),
            tags: sets(alloc, tags)?,
        })?;
    }
    Ok(row)
}

fn accept(
    alloc: Global,
    primes: &Primes,
    merges: &Row<FileMerge>,
    tags: u32,
) -> Result<TagTable, Stop> {
    if !tags_are_of_atoms(merges.slice(), primes.atoms()) {
        return Err(Stop::Memory);
    }
    let mut limits = Limits::usual();
    limits.tags = tags;
    accept_merges(alloc, primes, merges, &limits)
}

/// What becomes of merges with these tags, with the limit on tags.
pub(crate) fn accepted(alloc: Global, merges: &[&[&[Sign]]], tags: u32) -> Result<TagTable, Stop> {
    let primes = primes(alloc, &ONE_OF_THREE, &[], 3)?;
    let file = file(alloc, merges)?;
    let table = accept(alloc, &primes, &file, tags);
    drop(file);
    drop(primes);
    table
}

// ---- tables of a mode

/// The usual limits, with these on tags and on sets of clauses of one size.
pub(crate) fn at_most(tags: u32, sets: u64) -> Limits {
    let mut limits = Limits::usual();
    limits.tags = tags;
    limits.sets = sets;
    limits
}

fn table_of(
    alloc: Global,
    mode: Mode,
    ground: &Ground,
    primes: &Primes,
    limits: &Limits,
) -> Result<TagTable, Stop> {
    if ground.atoms.len() != primes.atoms() as usize || !is_of_its_atoms(ground) {
        return Err(Stop::Memory);
    }
    let relevance = Relevance::of(alloc, ground)?;
    let table = make(alloc, mode, ground, primes, &relevance, limits);
    drop(relevance);
    table
}

/// The table of a mode where one of three cells is full, and the first is to be.
pub(crate) fn made_of_cells(alloc: Global, mode: Mode, limits: &Limits) -> Result<TagTable, Stop> {
    let primes = primes(alloc, &ONE_OF_THREE, &[], 3)?;
    let ground = single(alloc, 3, &LEFT, &[(0, true)])?;
    let table = table_of(alloc, mode, &ground, &primes, limits);
    drop(ground);
    drop(primes);
    table
}

/// The table of a mode where p and r may be either way, and g, which is false, is to be true.
pub(crate) fn made_of_ways(alloc: Global, mode: Mode, limits: &Limits) -> Result<TagTable, Stop> {
    let primes = primes(alloc, &[], &[2], 3)?;
    let ground = single(alloc, 3, &EACH_WAY, &[(2, true)])?;
    let table = table_of(alloc, mode, &ground, &primes, limits);
    drop(ground);
    drop(primes);
    table
}
