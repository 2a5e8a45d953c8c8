ghost use Rattle.std.specs.Prelude.{◌≡◌, true};
ghost use Rattle.std.specs.List.{list_all};
ghost use Rattle.kp_base.specs.Implicates.{are_below};
ghost use Rattle.kp_primes.specs.Held.{formula};
ghost use Rattle.kp_tags.specs.MergeTables.{has_tags_of_atoms};
ghost use Rattle.kp_tags.specs.Answers.{AnswersInconsistent, AnswersMerge, AnswersMerges, AreConsistent};

use crate::tags::as_number;
use kp_base::{LitSet, Refused, Row, Stop};
use kp_cover::{Validity, valid};
use kp_primes::Primes;
use kp_tags_files::FileMerge;
use std::alloc::Global;

// Where the first inconsistent tag stands, if one is inconsistent.
fn first_inconsistent(primes: &Primes, tags: &[LitSet]) -> Option<usize>
    ensures { AnswersInconsistent (formula primes.now) tags.now result }
{
    for (place, tag) in tags.iter().enumerate() {
        if !primes.consistent(tag) {
            return Some(place);
        }
    }
    None
}

// Whether consistent tags are those of a valid merge.
fn judge_consistent(
    alloc: Global,
    primes: &Primes,
    merge: u32,
    tags: &Row<LitSet>,
) -> Result<(), Stop>
    requires of_atoms { list_all (are_below primes.now.atoms) tags.now ≡ true }
    requires consistent { AreConsistent (formula primes.now) tags.now }
    ensures { AnswersMerge primes.now.atoms (formula primes.now) merge tags.now result }
{
    match valid(alloc, primes, tags)? {
        Validity::Valid => Ok(()),
        Validity::Invalid(state) => Err(Stop::Refused(Refused::MergeInvalid { merge, state })),
    }
}

// Whether tags are consistent, and those of a valid merge.
fn judge(alloc: Global, primes: &Primes, merge: u32, tags: &Row<LitSet>) -> Result<(), Stop>
    requires { list_all (are_below primes.now.atoms) tags.now ≡ true }
    ensures { AnswersMerge primes.now.atoms (formula primes.now) merge tags.now result }
{
    match first_inconsistent(primes, tags.slice()) {
        Some(place) => Err(Stop::Refused(Refused::TagInconsistent {
            merge,
            tag: as_number(place)?,
        })),
        None => judge_consistent(alloc, primes, merge, tags),
    }
}

/// Whether each merge is valid and each of its tags consistent; else the first that isn't is refused.
pub fn judge_all(alloc: Global, primes: &Primes, merges: &[FileMerge]) -> Result<(), Stop>
    requires { list_all (has_tags_of_atoms primes.now.atoms) merges.now ≡ true }
    ensures { AnswersMerges primes.now.atoms (formula primes.now) merges.now result }
{
    for (number, merge) in merges.iter().enumerate() {
        judge(alloc, primes, as_number(number)?, &merge.tags)?;
    }
    Ok(())
}
