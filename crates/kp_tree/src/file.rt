ghost use Rattle.std.specs.Prelude.{◌≡◌, ◌≤◌, length, take};
ghost use Rattle.kp_base.specs.declared.refused.Part.TheVariants as parts;
ghost use Rattle.kp_base.specs.Files.{most_bytes};
ghost use Rattle.kp_tree_grammar.specs.Grammar.{domain, problem};
ghost use Rattle.kp_tree_grammar.specs.View.{domain_view, problem_view};
ghost use Rattle.kp_tree.specs.Files.{AnswersFile};

use crate::parse::{levels, parse_domain, parse_problem};
use bumpalo::Bump;
use kp_base::{Part, Stop};
use kp_lex::{Beginning, tokens_within};
use kp_tree_arena::{copy_domain, copy_problem};
use kp_tree_grammar::{Domain, Problem};
use std::alloc::Global;

// The first bytes, so many.
fn beginning(bytes: &[u8], to: u32) -> &[u8]
    requires { to ≤ length bytes.now }
    ensures { result.now ≡ take to bytes.now }
{
    &bytes[..to as usize]
}

/// The tree of a domain file, or its refusal at the byte where it is refused.
///
/// It is parsed in an arena, which is given up when the tree is copied out of it.
pub fn read_domain(alloc: Global, bytes: &[u8]) -> Result<Domain, Stop>
    requires { length bytes.now ≤ most_bytes }
    ensures { AnswersFile parts.Domain domain domain_view bytes.now result }
{
    let Beginning { tokens, to } = tokens_within(alloc, Part::Domain, bytes, levels())?;
    let bump = Bump::new(alloc);
    let node = parse_domain(&bump, alloc, beginning(bytes, to), &tokens)?;
    drop(tokens);
    Ok(copy_domain(alloc, &node)?)
}

/// The tree of a problem file, or its refusal at the byte where it is refused.
///
/// It is parsed in an arena, which is given up when the tree is copied out of it.
pub fn read_problem(alloc: Global, bytes: &[u8]) -> Result<Problem, Stop>
    requires { length bytes.now ≤ most_bytes }
    ensures { AnswersFile parts.Problem problem problem_view bytes.now result }
{
    let Beginning { tokens, to } = tokens_within(alloc, Part::Problem, bytes, levels())?;
    let bump = Bump::new(alloc);
    let node = parse_problem(&bump, alloc, beginning(bytes, to), &tokens)?;
    drop(tokens);
    Ok(copy_problem(alloc, &node)?)
}
