ghost use Rattle.std.specs.Prelude.{◌≡◌, length};
ghost use Rattle.kp_base.specs.Implicates.{IsOfItsAtoms};
ghost use Rattle.kp_primes.specs.Held.{formula};
ghost use Rattle.kp_relevance.specs.Relevant.{ArePairsOf};
ghost use Rattle.kp_tags.specs.Made.{AnswersMade};

use crate::accepting::table_within;
use kp_base::{Ground, Limits, Mode, Stop, TagTable};
use kp_primes::Primes;
use kp_relevance::Relevance;
use kp_tags_modes::merges_of;
use std::alloc::Global;

/// The table of the merges of a mode. The relevance and the prime implicates must be those of the ground problem.
///
/// Refused `SetsOver`, with the target and the size, where a target has more sets of clauses of a size than the limit and
/// the mode doesn't skip the size; else `TagsOver` for more tags than the limit.
pub fn make(
    alloc: Global,
    mode: Mode,
    ground: &Ground,
    primes: &Primes,
    relevance: &Relevance,
    limits: &Limits,
) -> Result<TagTable, Stop>
    requires ground { IsOfItsAtoms ground.now }
    requires relevance { ArePairsOf ground.now relevance.now }
    requires atoms { length ground.now.atoms ≡ primes.now.atoms }
    ensures { AnswersMade mode limits.now ground.now (formula primes.now) result }
{
    // There is a model, which the empty tag needs.
    let _clauses = primes.clauses();
    let merges = merges_of(alloc, mode, ground, primes, relevance, limits)?;
    table_within(alloc, primes, merges.slice(), limits.tags)
}
