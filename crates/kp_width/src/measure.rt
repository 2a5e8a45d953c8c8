//! All targets in turn.
ghost use Rattle.std.specs.Prelude.{◌≡◌, ◌↔◌, ◌≤◌, ◌<◌, length, true, IsTrue, IfOk};
ghost use Rattle.kp_base.specs.Implicates.{IsOfItsAtoms, are_below};
ghost use Rattle.kp_primes.specs.Held.{formula};
ghost use Rattle.kp_relevance.specs.Relevant.{ArePairsOf};
ghost use Rattle.kp_width.specs.Found.{AddsTarget, AnswersTargets, AnswersTags};
ghost use Rattle.kp_width.specs.Rows.{row_tags};
ghost use Rattle.kp_width.specs.declared.report.WidthReport.TheVariants as reports;
ghost use Rattle.kp_width.specs.Answers.{AnswersWidth};

use crate::problem::Problem;
use crate::report::{WidthReport, WidthRow};
use crate::tags::count_tags;
use crate::target::row_of;
use kp_base::{Ground, Limits, Lit, Memory, Refused, Row, Stop};
use kp_cover::targets;
use kp_primes::Primes;
use kp_relevance::Relevance;
use std::alloc::Global;

// Adds the row of a target, and tells whether it has one.
fn add_row(
    alloc: Global,
    problem: &Problem,
    bound: u32,
    limit: u64,
    target: Lit,
    rows: &mut Row<WidthRow>,
) -> Result<bool, Stop>
    requires pairs { ArePairsOf problem.now.ground.now problem.now.relevance.now }
    requires atoms { length problem.now.ground.now.atoms ≡ problem.now.primes.now.atoms }
    requires target { target.atom.0 < problem.now.primes.now.atoms }
    ensures { AddsTarget limit bound problem.now.ground.now (formula problem.now.primes.now) target rows.old rows.new result }
{
    match row_of(alloc, problem, bound, limit, target)? {
        Some(row) => {
            rows.push(row)?;
            Ok(true)
        }
        None => Ok(false),
    }
}

// The rows of targets, or the first that has none.
fn rows_of(
    alloc: Global,
    problem: &Problem,
    bound: u32,
    limit: u64,
    targets: &[Lit],
) -> Result<WidthReport, Stop>
    requires pairs { ArePairsOf problem.now.ground.now problem.now.relevance.now }
    requires atoms { length problem.now.ground.now.atoms ≡ problem.now.primes.now.atoms }
    requires targets { are_below problem.now.primes.now.atoms targets.now ≡ true }
    ensures { AnswersTargets limit bound problem.now.ground.now (formula problem.now.primes.now) targets.now result }
{
    let mut rows = Row::new(alloc);
    for target in targets {
        if !add_row(alloc, problem, bound, limit, *target, &mut rows)? {
            return Ok(WidthReport::Over(*target));
        }
    }
    Ok(WidthReport::Within(rows))
}

// Whether the rows have no more different tags, with the empty one, than the limit.
fn has_few_tags(alloc: Global, rows: &[WidthRow], limit: u32) -> Result<bool, Memory>
    ensures { IfOk result (λ b. IsTrue b ↔ length (row_tags rows.now) ≤ limit) }
{
    Ok(count_tags(alloc, rows)? <= limit as usize)
}

// The report of rows, unless they have too many tags.
fn within_tags(alloc: Global, rows: Row<WidthRow>, limit: u32) -> Result<WidthReport, Stop>
    ensures { AnswersTags limit (reports.Within rows) result }
{
    if has_few_tags(alloc, rows.slice(), limit)? {
        Ok(WidthReport::Within(rows))
    } else {
        Err(Stop::Refused(Refused::TagsOver))
    }
}

// The report, unless its rows have too many tags.
fn within(alloc: Global, report: WidthReport, limit: u32) -> Result<WidthReport, Stop>
    ensures { AnswersTags limit report result }
{
    match report {
        WidthReport::Within(rows) => within_tags(alloc, rows, limit),
        WidthReport::Over(target) => Ok(WidthReport::Over(target)),
    }
}

/// The width of a ground problem: for each target, in order, the first of the least sets of its relevant clauses whose
/// tags cover it; or the first target that no set of so few clauses covers.
///
/// Refused `SetsOver` for the first target that is neither, with the first size of which there are more sets than the
/// limit; and `TagsOver` where each target is covered and there are more different tags, with the empty one, than the
/// limit.
pub fn width(
    alloc: Global,
    ground: &Ground,
    primes: &Primes,
    relevance: &Relevance,
    bound: u32,
    limits: &Limits,
) -> Result<WidthReport, Stop>
    requires of_atoms { IsOfItsAtoms ground.now }
    requires relevance { ArePairsOf ground.now relevance.now }
    requires atoms { length ground.now.atoms ≡ primes.now.atoms }
    ensures { AnswersWidth limits.now bound ground.now (formula primes.now) result }
{
    let problem = Problem {
        ground,
        primes,
        relevance,
    };
    let targets = targets(alloc, ground)?;
    let report = rows_of(alloc, &problem, bound, limits.sets, targets.slice())?;
    within(alloc, report, limits.tags)
}
