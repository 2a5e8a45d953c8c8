//! One target: its row, if it has one.
ghost use Rattle.std.specs.Prelude.{◌≡◌, ◌<◌, length, true};
ghost use Rattle.std.specs.List.{list_all};
ghost use Rattle.kp_base.specs.Implicates.{are_below};
ghost use Rattle.kp_primes.specs.Held.{formula};
ghost use Rattle.kp_relevance.specs.Relevant.{ArePairsOf};
ghost use Rattle.kp_width.specs.Found.{AnswersClauses, AnswersTarget};

use crate::problem::Problem;
use crate::report::WidthRow;
use crate::row::row_at;
use kp_base::{Lit, LitSet, Refused, Stop};
use kp_cover::{covers_are_told, least_cover, relevant_clauses_are_of_atoms};
use kp_cover_subsets::LeastSet;
use kp_primes::Primes;
use std::alloc::Global;

// The row of the target to which these clauses are relevant, if some set of them that is small enough covers.
fn row_over(
    alloc: Global,
    primes: &Primes,
    clauses: &[LitSet],
    bound: u32,
    limit: u64,
    target: Lit,
) -> Result<Option<WidthRow>, Stop>
    requires { list_all (are_below primes.now.atoms) clauses.now ≡ true }
    ensures { AnswersClauses limit bound (formula primes.now) clauses.now target result }
{
    covers_are_told();
    let _whole = primes.clauses();
    match least_cover(alloc, primes, clauses, 0, bound, limit, false)? {
        LeastSet::Found { places, .. } => {
            let row = row_at(alloc, primes, clauses, &places, target)?;
            Ok(Some(row))
        }
        LeastSet::TooMany { size } => Err(Stop::Refused(Refused::SetsOver { target, size })),
        LeastSet::Nothing => Ok(None),
    }
}

/// The row of a target, if some set of its relevant clauses that is small enough covers.
pub(crate) fn row_of(
    alloc: Global,
    problem: &Problem,
    bound: u32,
    limit: u64,
    target: Lit,
) -> Result<Option<WidthRow>, Stop>
    requires pairs { ArePairsOf problem.now.ground.now problem.now.relevance.now }
    requires atoms { length problem.now.ground.now.atoms ≡ problem.now.primes.now.atoms }
    requires target { target.atom.0 < problem.now.primes.now.atoms }
    ensures { AnswersTarget limit bound problem.now.ground.now (formula problem.now.primes.now) target result }
{
    relevant_clauses_are_of_atoms();
    let _whole = problem.primes.clauses();
    let clauses = problem
        .relevance
        .clauses_for(alloc, problem.primes, target)?;
    row_over(alloc, problem.primes, clauses.slice(), bound, limit, target)
}
