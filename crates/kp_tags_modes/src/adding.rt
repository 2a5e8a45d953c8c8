//! Merges of one target, put behind others.
ghost use Rattle.std.specs.Prelude.{◌≡◌, [], ◌∷◌, true, IfOk, OnOk};
ghost use Rattle.kp_primes.specs.Held.{formula};
ghost use Rattle.kp_cover.specs.Covering.{pick};
ghost use Rattle.kp_tags_modes.specs.Modes.{AreOneForEach, AreOtherwise};
ghost use Rattle.kp_tags_modes.specs.Added.{Adds, IsOver};

use crate::atoms::assigning;
use kp_base::{Lit, LitSet, Memory, Row};
use kp_cover::{cov, picked};
use kp_primes::Primes;
use kp_tags_files::FileMerge;
use std::alloc::Global;

// One merge over the clauses.
fn add_over(
    alloc: Global,
    primes: &Primes,
    clauses: &Row<LitSet>,
    target: Lit,
    merges: &mut Row<FileMerge>,
) -> Result<(), Memory>
    ensures { OnOk result (Adds target (IsOver (formula primes.now) clauses.now) merges.old merges.new) }
{
    let tags = cov(alloc, primes, clauses)?;
    merges.push(FileMerge { target, tags })?;
    Ok(())
}

/// One merge over the clauses at some places.
pub fn add_over_places(
    alloc: Global,
    primes: &Primes,
    clauses: &[LitSet],
    places: &[u32],
    target: Lit,
    merges: &mut Row<FileMerge>,
) -> Result<(), Memory>
    ensures { OnOk result (Adds target (IsOver (formula primes.now) (pick clauses.now places.now)) merges.old merges.new) }
{
    let set = picked(alloc, clauses, places)?;
    add_over(alloc, primes, &set, target, merges)
}

// The clause alone.
fn alone(alloc: Global, clause: &LitSet) -> Result<Row<LitSet>, Memory>
    ensures { IfOk result (λ row. row ≡ clause.now ∷ []) }
{
    let mut row = Row::new(alloc);
    row.push(clause.copy(alloc)?)?;
    Ok(row)
}

// One merge over each clause.
fn add_for_each(
    alloc: Global,
    primes: &Primes,
    clauses: &[LitSet],
    target: Lit,
    merges: &mut Row<FileMerge>,
) -> Result<(), Memory>
    ensures { OnOk result (Adds target (AreOneForEach (formula primes.now) clauses.now) merges.old merges.new) }
{
    for clause in clauses {
        let one = alone(alloc, clause)?;
        add_over(alloc, primes, &one, target, merges)?;
    }
    Ok(())
}

// One merge of all assignments of the atoms of the clauses.
fn add_assignments(
    alloc: Global,
    primes: &Primes,
    clauses: &[LitSet],
    target: Lit,
    merges: &mut Row<FileMerge>,
) -> Result<(), Memory>
    ensures { OnOk result (Adds target (AreOtherwise (formula primes.now) clauses.now true) merges.old merges.new) }
{
    let either = assigning(alloc, clauses)?;
    add_over(alloc, primes, &either, target, merges)
}

/// The merges where no set of the clauses covers: one of all assignments, or one over each clause.
pub fn add_otherwise(
    alloc: Global,
    primes: &Primes,
    clauses: &[LitSet],
    by_models: bool,
    target: Lit,
    merges: &mut Row<FileMerge>,
) -> Result<(), Memory>
    ensures { OnOk result (Adds target (AreOtherwise (formula primes.now) clauses.now by_models) merges.old merges.new) }
{
    if by_models {
        add_assignments(alloc, primes, clauses, target, merges)
    } else {
        add_for_each(alloc, primes, clauses, target, merges)
    }
}
