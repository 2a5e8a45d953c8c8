//! Which targets the merges of a table cover.
ghost use Rattle.std.specs.Prelude.{◌≡◌, ◌↔◌, ◌<◌, true, length, slice_get, nat_eq, IsTrue, IfOk, OnOk};
ghost use Rattle.kp_base.specs.Implicates.{IsOfItsAtoms, are_below};
ghost use Rattle.kp_base.specs.LitSet.{IsAscending};
ghost use Rattle.kp_base.specs.Entailed.{IsTable};
ghost use Rattle.kp_primes.specs.Held.{formula};
ghost use Rattle.kp_relevance.specs.Relevant.{ArePairsOf};
ghost use Rattle.kp_cover.specs.Covered.{row_meets, all_rows_meet, CoversBy, HasCover, TellsCovered, LeavesUncovered, AddsUncovered};
ghost use Rattle.kp_cover.specs.Coverage.{AnswersCoverage};

use crate::answer::Coverage;
use crate::meet::meets_all;
use crate::merge::is_valid;
use crate::needed::targets;
use kp_base::{Ground, Lit, LitSet, Memory, Merge, Row, TagTable};
use kp_primes::Primes;
use kp_relevance::Relevance;
use std::alloc::Global;

// Whether the closure of the tag with this number has a literal of each clause.
fn meets(table: &TagTable, tag: u32, clauses: &[LitSet]) -> bool
    ensures { result ≡ row_meets clauses.now (slice_get table.now.tags tag) }
{
    match table.tags.slice().get(tag as usize) {
        Some(row) => meets_all(&row.closure, clauses),
        None => false,
    }
}

// Whether the closures of all these tags do.
fn all_meet(table: &TagTable, tags: &[u32], clauses: &[LitSet]) -> bool
    ensures { result ≡ all_rows_meet table.now clauses.now tags.now }
{
    tags.iter().all(|t| meets(table, *t, clauses))
}

// Whether the merge is of the target, valid, and the closures of its tags meet the clauses.
fn covers_by(
    alloc: Global,
    primes: &Primes,
    table: &TagTable,
    clauses: &[LitSet],
    target: Lit,
    merge: &Merge,
) -> Result<bool, Memory>
    ensures { IfOk result (λ b. IsTrue b ↔ CoversBy (formula primes.now) table.now clauses.now target merge.now) }
{
    if merge.target != target {
        return Ok(false);
    }
    if !all_meet(table, merge.tags.slice(), clauses) {
        return Ok(false);
    }
    let valid = is_valid(alloc, primes, table, merge)?;
    Ok(valid)
}

// Whether some merge is so.
fn has_cover(
    alloc: Global,
    primes: &Primes,
    table: &TagTable,
    clauses: &[LitSet],
    target: Lit,
) -> Result<bool, Memory>
    ensures { IfOk result (λ b. IsTrue b ↔ HasCover (formula primes.now) table.now clauses.now target table.now.merges) }
{
    let merges = table.merges.slice();
    for merge in merges {
        if covers_by(alloc, primes, table, clauses, target, merge)? {
            return Ok(true);
        }
    }
    Ok(false)
}

// Whether the target is covered: by the empty tag, which is tag 0, or by a merge.
fn is_covered(
    alloc: Global,
    primes: &Primes,
    relevance: &Relevance,
    table: &TagTable,
    target: Lit,
) -> Result<bool, Memory>
    requires { target.atom.0 < primes.now.atoms }
    ensures { IfOk result (TellsCovered relevance.now primes.now table.now target) }
{
    let _whole = primes.clauses();
    let clauses = relevance.clauses_for(alloc, primes, target)?;
    if meets(table, 0, clauses.slice()) {
        return Ok(true);
    }
    let covered = has_cover(alloc, primes, table, clauses.slice(), target)?;
    Ok(covered)
}

// Puts the target behind the others, unless it is covered.
fn add_uncovered(
    alloc: Global,
    primes: &Primes,
    relevance: &Relevance,
    table: &TagTable,
    target: Lit,
    left: &mut Row<Lit>,
) -> Result<(), Memory>
    requires { target.atom.0 < primes.now.atoms }
    ensures { OnOk result (AddsUncovered relevance.now primes.now table.now target left.old left.new) }
{
    let covered = is_covered(alloc, primes, relevance, table, target)?;
    if covered {
        return Ok(());
    }
    left.push(target)?;
    Ok(())
}

// Those of the targets that aren't covered.
fn uncovered(
    alloc: Global,
    primes: &Primes,
    relevance: &Relevance,
    table: &TagTable,
    targets: &[Lit],
) -> Result<Row<Lit>, Memory>
    requires below { are_below primes.now.atoms targets.now ≡ true }
    requires ascending { IsAscending targets.now }
    ensures { IfOk result (LeavesUncovered relevance.now primes.now table.now targets.now) }
{
    let mut left = Row::new(alloc);
    for target in targets {
        add_uncovered(alloc, primes, relevance, table, *target, &mut left)?;
    }
    Ok(left)
}

// What is answered where these targets aren't covered.
fn answer(uncovered: Row<Lit>) -> Coverage
    ensures uncovered { result.uncovered ≡ uncovered }
    ensures complete { result.complete ≡ nat_eq (length uncovered) 0 }
{
    Coverage {
        complete: uncovered.len() == 0,
        uncovered,
    }
}

/// Which targets a table covers, and whether it covers all. Whether a merge is valid is asked of one alone whose tags
/// cover.
pub fn coverage(
    alloc: Global,
    ground: &Ground,
    primes: &Primes,
    relevance: &Relevance,
    table: &TagTable,
) -> Result<Coverage, Memory>
    requires of_its_atoms { IsOfItsAtoms ground.now }
    requires relevance { ArePairsOf ground.now relevance.now }
    requires atoms { length ground.now.atoms ≡ primes.now.atoms }
    requires table { IsTable ground.now (formula primes.now) table.now }
    ensures { IfOk result (AnswersCoverage ground.now (formula primes.now) table.now) }
{
    let targets = targets(alloc, ground)?;
    let uncovered = uncovered(alloc, primes, relevance, table, targets.slice())?;
    Ok(answer(uncovered))
}
