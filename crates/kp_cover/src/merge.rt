//! Whether a merge of a table is valid.
ghost use Rattle.std.specs.Prelude.{◌≡◌, ◌↔◌, ◌++◌, true, slice_get, IsTrue, IfOk, OnOk};
ghost use Rattle.std.specs.List.{list_all};
ghost use Rattle.kp_base.specs.Entailed.{IsValid};
ghost use Rattle.kp_base.specs.Implicates.{are_below};
ghost use Rattle.kp_primes.specs.Held.{formula};
ghost use Rattle.kp_cover.specs.Covered.{found, tags_found, says_valid};
ghost use Rattle.kp_cover.specs.Valid.{AreValidTags};

use crate::deny::none_outside;
use crate::tags::{Validity, valid};
use kp_base::{LitSet, Memory, Merge, Row, TagTable};
use kp_primes::{Primes, are_of_atoms};
use std::alloc::Global;

// Whether the answer is that tags are valid.
fn says_valid(answer: &Validity) -> bool
    ensures { result ≡ says_valid answer.now }
{
    match answer {
        Validity::Valid => true,
        Validity::Invalid(_) => false,
    }
}

// Whether the answer on the tags of the atoms is that they are valid.
fn are_told_valid(alloc: Global, primes: &Primes, tags: &Row<LitSet>) -> Result<bool, Memory>
    requires { list_all (are_below primes.now.atoms) tags.now ≡ true }
    ensures { IfOk result (λ b. IsTrue b ↔ AreValidTags (formula primes.now) tags.now) }
{
    let answer = valid(alloc, primes, tags)?;
    Ok(says_valid(&answer))
}

// Whether each initial state satisfies one of the tags, of whatever atoms these are.
fn are_valid(alloc: Global, primes: &Primes, tags: &Row<LitSet>) -> Result<bool, Memory>
    ensures { IfOk result (λ b. IsTrue b ↔ AreValidTags (formula primes.now) tags.now) }
{
    let _whole = primes.clauses();
    if are_of_atoms(tags.slice(), primes.atoms()) {
        let told = are_told_valid(alloc, primes, tags)?;
        return Ok(told);
    }
    let inside = none_outside(alloc, primes, tags.slice())?;
    Ok(inside)
}

// Adds the tag with this number, where there is one.
fn push_tag(alloc: Global, table: &TagTable, tag: u32, tags: &mut Row<LitSet>) -> Result<(), Memory>
    ensures { OnOk result (tags.new ≡ tags.old ++ found (slice_get table.now.tags tag)) }
{
    match table.tags.slice().get(tag as usize) {
        Some(row) => {
            tags.push(row.lits.copy(alloc)?)?;
            Ok(())
        }
        None => Ok(()),
    }
}

// The tags with these numbers.
fn tags_found(alloc: Global, table: &TagTable, numbers: &[u32]) -> Result<Row<LitSet>, Memory>
    ensures { IfOk result (λ tags. tags ≡ tags_found table.now numbers.now) }
{
    let mut tags = Row::new(alloc);
    for number in numbers {
        push_tag(alloc, table, *number, &mut tags)?;
    }
    Ok(tags)
}

/// Whether each initial state satisfies one of the merge's tags.
pub(crate) fn is_valid(
    alloc: Global,
    primes: &Primes,
    table: &TagTable,
    merge: &Merge,
) -> Result<bool, Memory>
    ensures { IfOk result (λ b. IsTrue b ↔ IsValid (formula primes.now) table.now merge.now) }
{
    let tags = tags_found(alloc, table, merge.tags.slice())?;
    let valid = are_valid(alloc, primes, &tags)?;
    Ok(valid)
}
