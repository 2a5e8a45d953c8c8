ghost use Rattle.std.specs.Prelude.{◌≡◌, ◌≤◌, length, Some};
ghost use Rattle.kp_base.specs.declared.refused.Part.TheVariants as parts;
ghost use Rattle.kp_base.specs.Files.{most_bytes};
ghost use Rattle.kp_tree_grammar.specs.Grammar as grammar;
ghost use Rattle.kp_tree_grammar.specs.Texts.{ReadsAs};
ghost use Rattle.kp_names_semantics.specs.Faults.{Fault as Wrong, byte_of, domain_faults, problem_faults};
ghost use Rattle.kp_names_declared.specs.Collected.{domain_of, problem_of};
ghost use Rattle.kp_names.specs.Noted.{Refuses, Judges, JudgesBoth};

use crate::first::First;
use crate::whole::{note_domain, note_problem};
use kp_base::{Part, Stop, Texts};
use kp_names_declared::Names;
use std::alloc::Global;

// Refuses a file that has a fault.
fn refuse(first: &First, part: Part, bytes: &[u8]) -> Result<(), Stop>
    requires short { length bytes.now ≤ most_bytes }
    requires within { (fault : Wrong) → first.now ≡ Some fault → byte_of fault ≤ length bytes.now }
    ensures { Refuses part bytes.now first.now result }
{
    match first.fault() {
        Some(fault) => Err(Stop::Refused(fault.refusal(part, bytes))),
        None => Ok(()),
    }
}

// Refuses a domain that has a fault, at the first.
fn judge_domain(alloc: Global, bytes: &[u8], names: &Names) -> Result<(), Stop>
    requires short { length bytes.now ≤ most_bytes }
    requires reads { ReadsAs grammar.domain bytes.now (domain_of names.now) }
    ensures { Judges parts.Domain bytes.now (domain_faults (domain_of names.now) (problem_of names.now)) result }
{
    let mut first = First::new();
    note_domain(alloc, names, &mut first)?;
    refuse(&first, Part::Domain, bytes)
}

// Refuses a problem that has a fault, at the first.
fn judge_problem(alloc: Global, bytes: &[u8], names: &Names) -> Result<(), Stop>
    requires short { length bytes.now ≤ most_bytes }
    requires reads { ReadsAs grammar.problem bytes.now (problem_of names.now) }
    ensures { Judges parts.Problem bytes.now (problem_faults (domain_of names.now) (problem_of names.now)) result }
{
    let mut first = First::new();
    note_problem(alloc, names, &mut first);
    refuse(&first, Part::Problem, bytes)
}

/// Refuses two trees that have a fault, at the first of the domain, or else of the problem.
pub fn judge(alloc: Global, bytes: &Texts, names: &Names) -> Result<(), Stop>
    requires domain_short { length bytes.now.domain ≤ most_bytes }
    requires problem_short { length bytes.now.problem ≤ most_bytes }
    requires domain_reads { ReadsAs grammar.domain bytes.now.domain (domain_of names.now) }
    requires problem_reads { ReadsAs grammar.problem bytes.now.problem (problem_of names.now) }
    ensures { JudgesBoth bytes.now.domain bytes.now.problem (domain_of names.now) (problem_of names.now) result }
{
    judge_domain(alloc, bytes.domain.slice(), names)?;
    judge_problem(alloc, bytes.problem.slice(), names)
}
