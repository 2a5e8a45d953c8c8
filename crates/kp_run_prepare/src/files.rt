ghost use Rattle.std.specs.Prelude.{◌≡◌, ℕ, List, Some, Err, IfOk};
ghost use Rattle.kp_base.specs.declared.refused.Part.TheVariants as parts;
ghost use Rattle.kp_base.specs.declared.refused.Refused.{Refused as Refusal};
ghost use Rattle.kp_base.specs.declared.refused.Stop.TheVariants as stops;
ghost use Rattle.kp_base.specs.Files.{most_bytes};
ghost use Rattle.kp_tree_grammar.specs.Grammar as grammar;
ghost use Rattle.kp_tree_grammar.specs.View.{domain_view, problem_view};
ghost use Rattle.kp_outside.specs.Outside.{IsFront, IsWithin};
ghost use Rattle.kp_tree.specs.Files.{HasTree, AnswersFile};
ghost use Rattle.kp_run_prepare.specs.Texts.{IsProblemOf, RefusesTexts};

use kp_base::{Part, Refused, Stop, Texts};
use kp_names::{Lifted, resolve};
use kp_outside::Got;
use kp_tree::{Domain, Problem, read_domain, read_problem};
use std::alloc::Global;

// The tree of a domain, at most 16,777,216 bytes of which were read.
fn domain_of(alloc: Global, got: &Got) -> Result<Domain, Stop>
    requires { IsWithin most_bytes got.now }
    ensures tree { IfOk result (λ d. HasTree grammar.domain got.now.bytes (domain_view d)) }
    ensures whole { (text : List ℕ) → IsFront (Some text) most_bytes got.now → IfOk result (λ d. got.now.bytes ≡ text) }
    ensures front { (text : List ℕ) → IsFront (Some text) most_bytes got.now → AnswersFile parts.Domain grammar.domain domain_view text result }
{
    if got.more {
        return Err(Stop::Refused(Refused::TooLong(Part::Domain)));
    }
    read_domain(alloc, got.bytes.slice())
}

// The tree of a problem, at most 16,777,216 bytes of which were read.
fn problem_of(alloc: Global, got: &Got) -> Result<Problem, Stop>
    requires { IsWithin most_bytes got.now }
    ensures tree { IfOk result (λ p. HasTree grammar.problem got.now.bytes (problem_view p)) }
    ensures whole { (text : List ℕ) → IsFront (Some text) most_bytes got.now → IfOk result (λ p. got.now.bytes ≡ text) }
    ensures front { (text : List ℕ) → IsFront (Some text) most_bytes got.now → AnswersFile parts.Problem grammar.problem problem_view text result }
{
    if got.more {
        return Err(Stop::Refused(Refused::TooLong(Part::Problem)));
    }
    read_problem(alloc, got.bytes.slice())
}

// The trees of both files, at most 16,777,216 bytes of each of which were read.
fn trees_of(alloc: Global, domain: &Got, problem: &Got) -> Result<(Domain, Problem), Stop>
    requires domain { IsWithin most_bytes domain.now }
    requires problem { IsWithin most_bytes problem.now }
    ensures trees { IfOk result (λ x. HasTree grammar.domain domain.now.bytes (domain_view x.0) × HasTree grammar.problem problem.now.bytes (problem_view x.1)) }
    ensures whole { (d p : List ℕ) → IsFront (Some d) most_bytes domain.now → IsFront (Some p) most_bytes problem.now → IfOk result (λ _. (domain.now.bytes ≡ d) × (problem.now.bytes ≡ p)) }
    ensures refused { (d p : List ℕ) (r : Refusal) → IsFront (Some d) most_bytes domain.now → IsFront (Some p) most_bytes problem.now → result ≡ Err (stops.Refused r) → RefusesTexts d p r }
{
    let domain_tree = domain_of(alloc, domain)?;
    let problem_tree = problem_of(alloc, problem)?;
    Ok((domain_tree, problem_tree))
}

/// The problem by number of two files, at most 16,777,216 bytes of each of which were read.
pub fn read_files(alloc: Global, domain: Got, problem: Got) -> Result<Lifted, Stop>
    requires domain { IsWithin most_bytes domain }
    requires problem { IsWithin most_bytes problem }
    ensures read { IfOk result (IsProblemOf domain.bytes problem.bytes) }
    ensures resolved { (d p : List ℕ) → IsFront (Some d) most_bytes domain → IsFront (Some p) most_bytes problem → IfOk result (IsProblemOf d p) }
    ensures refused { (d p : List ℕ) (r : Refusal) → IsFront (Some d) most_bytes domain → IsFront (Some p) most_bytes problem → result ≡ Err (stops.Refused r) → RefusesTexts d p r }
{
    let trees = trees_of(alloc, &domain, &problem)?;
    let texts = Texts {
        domain: domain.bytes,
        problem: problem.bytes,
    };
    resolve(alloc, &texts, &trees.0, &trees.1)
}
