ghost use Rattle.std.specs.Prelude.{◌≤◌, length};
ghost use Rattle.kp_base.specs.Files.{most_bytes};
ghost use Rattle.kp_tree_grammar.specs.Grammar as grammar;
ghost use Rattle.kp_tree_grammar.specs.Texts.{ReadsAs};
ghost use Rattle.kp_tree_grammar.specs.View.{domain_view, problem_view};
ghost use Rattle.kp_names.specs.Resolved.{AnswersNames};

use crate::judge::judge;
use kp_base::{Stop, Texts};
use kp_names_declared::Names;
use kp_names_numbered::{Lifted, by_number};
use kp_tree_grammar::{Domain, Problem};
use std::alloc::Global;

/// The problem by number of two trees, or the refusal at the first token with a fault: of the domain, or,
/// where that has none, of the problem. The trees must be those of the texts.
pub fn resolve(
    alloc: Global,
    bytes: &Texts,
    domain: &Domain,
    problem: &Problem,
) -> Result<Lifted, Stop>
    requires domain_short { length bytes.now.domain ≤ most_bytes }
    requires problem_short { length bytes.now.problem ≤ most_bytes }
    requires domain_reads { ReadsAs grammar.domain bytes.now.domain (domain_view domain.now) }
    requires problem_reads { ReadsAs grammar.problem bytes.now.problem (problem_view problem.now) }
    ensures { AnswersNames bytes.now.domain bytes.now.problem (domain_view domain.now) (problem_view problem.now) result }
{
    let names = Names::collect(alloc, domain, problem)?;
    match judge(alloc, bytes, &names) {
        Ok(()) => {
            let lifted = by_number(alloc, bytes, names)?;
            Ok(lifted)
        }
        Err(stop) => {
            drop(names);
            Err(stop)
        }
    }
}
