//! The merges of all targets.
ghost use Rattle.std.specs.Prelude.{◌≡◌, length};
ghost use Rattle.kp_base.specs.Implicates.{IsOfItsAtoms};
ghost use Rattle.kp_primes.specs.Held.{formula};
ghost use Rattle.kp_relevance.specs.Relevant.{ArePairsOf};
ghost use Rattle.kp_tags_modes.specs.Answers.{AnswersMode};

use crate::targets::add_for;
use crate::way::way_of;
use kp_base::{Ground, Limits, Mode, Row, Stop};
use kp_cover::targets;
use kp_primes::Primes;
use kp_relevance::Relevance;
use kp_tags_files::FileMerge;
use std::alloc::Global;

/// The merges of a mode, in order of their targets: literals of preconditions and of the goal.
///
/// `K0` has none, and no mode has one for a target that the empty tag covers. The others look for the first of the least
/// sets of the target's relevant clauses that cover it, of at most 1, 2 or 3 clauses in `K1`, `K2` and `K3`. Where there
/// is none, they have a merge for each relevant clause. `Models` has one with all consistent assignments of the atoms of
/// the relevant clauses. `Auto` looks as `K3`, skips sizes with too many sets, and else has the merge of `Models`.
///
/// Refused `SetsOver` for the first target, and its first size, of which there are more sets than the limit, where no
/// smaller set covers.
pub fn merges_of(
    alloc: Global,
    mode: Mode,
    ground: &Ground,
    primes: &Primes,
    relevance: &Relevance,
    limits: &Limits,
) -> Result<Row<FileMerge>, Stop>
    requires of_atoms { IsOfItsAtoms ground.now }
    requires relevance { ArePairsOf ground.now relevance.now }
    requires atoms { length ground.now.atoms ≡ primes.now.atoms }
    ensures { AnswersMode mode limits.now.sets ground.now (formula primes.now) result }
{
    let way = match way_of(mode) {
        Some(way) => way,
        None => return Ok(Row::new(alloc)),
    };
    let targets = targets(alloc, ground)?;
    let mut merges = Row::new(alloc);
    for target in targets.slice() {
        add_for(
            alloc,
            way,
            primes,
            relevance,
            limits.sets,
            *target,
            &mut merges,
        )?;
    }
    Ok(merges)
}
