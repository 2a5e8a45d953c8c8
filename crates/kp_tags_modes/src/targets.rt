//! The merges of one target.
ghost use Rattle.std.specs.Prelude.{◌≡◌, ◌≤◌, ◌<◌, [], true, false};
ghost use Rattle.std.specs.List.{list_all};
ghost use Rattle.kp_base.specs.Implicates.{are_below};
ghost use Rattle.kp_primes.specs.Held.{formula};
ghost use Rattle.kp_cover.specs.Tested.{tells_cover};
ghost use Rattle.kp_tags_modes.specs.Modes.{AreMergesBy};
ghost use Rattle.kp_tags_modes.specs.Added.{AddsOrRefuses, IsRefusedBy, AreByRelevance, AreOfSome, IsRefusedByRelevance};

use crate::adding::{add_otherwise, add_over_places};
use crate::way::Way;
use kp_base::{Lit, LitSet, Refused, Row, Stop};
use kp_cover::{covers_are_told, is_cover, least_cover};
use kp_cover_subsets::LeastSet;
use kp_primes::Primes;
use kp_relevance::Relevance;
use kp_tags_files::FileMerge;
use std::alloc::Global;

// The merges over the least set of the clauses that covers, or where there is none.
fn add_searched(
    alloc: Global,
    way: Way,
    primes: &Primes,
    clauses: &[LitSet],
    limit: u64,
    target: Lit,
    merges: &mut Row<FileMerge>,
) -> Result<(), Stop>
    requires few { way.greatest ≤ 3 }
    requires below { list_all (are_below primes.now.atoms) clauses.now ≡ true }
    requires uncovered { tells_cover primes.now clauses.now [] ≡ false }
    ensures { AddsOrRefuses target (AreMergesBy way limit (formula primes.now) clauses.now) (IsRefusedBy way limit (formula primes.now) clauses.now) merges.old merges.new result }
{
    covers_are_told();
    let _whole = primes.clauses();
    match least_cover(alloc, primes, clauses, 1, way.greatest, limit, way.skips)? {
        LeastSet::Found { places, .. } => {
            add_over_places(alloc, primes, clauses, &places, target, merges)?;
            Ok(())
        }
        LeastSet::TooMany { size } => Err(Stop::Refused(Refused::SetsOver { target, size })),
        LeastSet::Nothing => {
            add_otherwise(alloc, primes, clauses, way.by_models, target, merges)?;
            Ok(())
        }
    }
}

// The merges by the relevant clauses; none where the empty tag covers them.
fn add_by_clauses(
    alloc: Global,
    way: Way,
    primes: &Primes,
    clauses: &[LitSet],
    limit: u64,
    target: Lit,
    merges: &mut Row<FileMerge>,
) -> Result<(), Stop>
    requires few { way.greatest ≤ 3 }
    requires below { list_all (are_below primes.now.atoms) clauses.now ≡ true }
    ensures { AddsOrRefuses target (AreMergesBy way limit (formula primes.now) clauses.now) (IsRefusedBy way limit (formula primes.now) clauses.now) merges.old merges.new result }
{
    covers_are_told();
    let _whole = primes.clauses();
    if is_cover(alloc, primes, clauses, &[])? {
        return Ok(());
    }
    add_searched(alloc, way, primes, clauses, limit, target, merges)
}

/// The merges of a target.
pub fn add_for(
    alloc: Global,
    way: Way,
    primes: &Primes,
    relevance: &Relevance,
    limit: u64,
    target: Lit,
    merges: &mut Row<FileMerge>,
) -> Result<(), Stop>
    requires few { way.greatest ≤ 3 }
    requires target { target.atom.0 < primes.now.atoms }
    requires of_some { AreOfSome relevance.now primes.now }
    ensures { AddsOrRefuses target (AreByRelevance way limit relevance.now primes.now target) (IsRefusedByRelevance way limit relevance.now primes.now target) merges.old merges.new result }
{
    let _whole = primes.clauses();
    let clauses = relevance.clauses_for(alloc, primes, target)?;
    add_by_clauses(alloc, way, primes, clauses.slice(), limit, target, merges)
}
