ghost use Rattle.std.specs.Prelude.{◌≡◌, true, IfOk};
ghost use Rattle.std.specs.List.{list_all};
ghost use Rattle.kp_primes.specs.Held.{formula};
ghost use Rattle.kp_tags.specs.MergeTables.{has_tags_of_atoms, used_tags, IsTableOf};
ghost use Rattle.kp_tags.specs.Answers.{AnswersTable, AreAllAcceptable};

use crate::judging::judge_all;
use crate::numbers::all_numbered;
use crate::rows::rows;
use crate::tags::Tags;
use kp_base::{Limits, Memory, Refused, Row, Stop, TagTable};
use kp_primes::Primes;
use kp_tags_files::FileMerge;
use std::alloc::Global;

// The table of some merges and their tags. No merge must be at fault.
fn table(
    alloc: Global,
    primes: &Primes,
    tags: &Tags,
    merges: &[FileMerge],
) -> Result<TagTable, Memory>
    requires used { tags.now ≡ used_tags merges.now }
    requires acceptable { AreAllAcceptable (formula primes.now) merges.now }
    ensures { IfOk result (IsTableOf primes.now.atoms (formula primes.now) merges.now) }
{
    // There is a model, which the empty tag needs.
    let _clauses = primes.clauses();
    Ok(TagTable {
        tags: rows(alloc, primes, tags)?,
        merges: all_numbered(alloc, tags, merges)?,
    })
}

// The same, unless there are more tags than the limit.
fn table_with(
    alloc: Global,
    primes: &Primes,
    tags: &Tags,
    merges: &[FileMerge],
    limit: u32,
) -> Result<TagTable, Stop>
    requires used { tags.now ≡ used_tags merges.now }
    requires acceptable { AreAllAcceptable (formula primes.now) merges.now }
    ensures { AnswersTable primes.now.atoms (formula primes.now) merges.now limit result }
{
    if tags.len() > limit as usize {
        return Err(Stop::Refused(Refused::TagsOver));
    }
    let table = table(alloc, primes, tags, merges)?;
    Ok(table)
}

/// The table of merges without a fault, unless their tags pass the limit.
pub(crate) fn table_within(
    alloc: Global,
    primes: &Primes,
    merges: &[FileMerge],
    limit: u32,
) -> Result<TagTable, Stop>
    requires { AreAllAcceptable (formula primes.now) merges.now }
    ensures { AnswersTable primes.now.atoms (formula primes.now) merges.now limit result }
{
    let tags = Tags::used(alloc, merges)?;
    let answer = table_with(alloc, primes, &tags, merges, limit);
    drop(tags);
    answer
}

/// The table of the merges of a file, where each tag is consistent and each merge valid. The tags must be of the atoms
/// (`tags_are_of_atoms`).
///
/// Refused by the first merge with a fault: `TagInconsistent` at its first inconsistent tag; or, where its tags are
/// consistent, `MergeInvalid` with the first state outside them. Where no merge has a fault, refused `TagsOver` for more
/// tags than the limit.
pub fn accept_merges(
    alloc: Global,
    primes: &Primes,
    merges: &Row<FileMerge>,
    limits: &Limits,
) -> Result<TagTable, Stop>
    requires { list_all (has_tags_of_atoms primes.now.atoms) merges.now ≡ true }
    ensures { AnswersTable primes.now.atoms (formula primes.now) merges.now limits.now.tags result }
{
    match judge_all(alloc, primes, merges.slice()) {
        Ok(()) => table_within(alloc, primes, merges.slice(), limits.tags),
        Err(stop) => Err(stop),
    }
}
