ghost use Rattle.std.specs.Prelude.{◌≡◌, ◌≤◌, length, IfErr};
ghost use Rattle.kp_lex.specs.Cutting.{Cut};
ghost use Rattle.kp_base.specs.declared.refused.Part.TheVariants as parts;
ghost use Rattle.kp_base.specs.Files.{most_bytes};
ghost use Rattle.kp_tree_grammar.specs.Depth.{levels};
ghost use Rattle.kp_tree_grammar.specs.Grammar.{domain, problem};
ghost use Rattle.kp_tree.specs.Files.{AnswersTokens, IsToldWithin};
ghost use Rattle.kp_tree_arena.specs.Nodes.{domain_view, problem_view};
ghost use Rattle.kp_tree_parts.specs.Readers.{GivesAll, whole_at};
ghost use Rattle.kp_tree.specs.Refusals.{IsTold};

use bumpalo::Bump;
use kp_base::{Part, Refused, Row, Stop};
use kp_lex::{Token, place};
use kp_tree_arena::{DomainNode, ProblemNode};
use kp_tree_cursor::byte_of;
use kp_tree_parts::{Halt, Tokens, peek, tokens_in};
use kp_tree_sections::{domain, problem};
use std::alloc::Global;

// So many brackets may be open at once.
pub(crate) fn levels() -> u32
    ensures { result ≡ levels }
{
    64
}

// What ends the call where no tree was read.
fn told(part: Part, bytes: &[u8], tokens: &[Token], halt: Halt) -> Stop
    requires short { length bytes.now ≤ most_bytes }
    requires cut { Cut 0 bytes.now tokens.now }
    ensures told { IsTold part bytes.now tokens.now halt result }
    ensures within { IsToldWithin bytes.now result }
{
    match halt {
        Halt::Memory => Stop::Memory,
        Halt::Syntax(number) => {
            let byte = byte_of(bytes, tokens, number);
            Stop::Refused(Refused::Syntax(place(part, bytes, byte)))
        }
        Halt::Unsupported(number) => {
            let byte = byte_of(bytes, tokens, number);
            Stop::Refused(Refused::Unsupported(place(part, bytes, byte)))
        }
    }
}

// The domain that all the tokens are.
#[tactic(auto, unfolding(kp_tree_parts::specs::Readers::whole_at, kp_tree_sections::specs::Sections::domain_at))]
fn whole_domain<'a>(bump: &'a Bump, tokens: &Tokens<'_, 'a>) -> Result<DomainNode<'a>, Halt>
    ensures { GivesAll tokens.now domain_view result (whole_at domain tokens.now) }
{
    let (domain, at) = domain(bump, tokens, 0, levels())?;
    match peek(tokens, at) {
        None => Ok(domain),
        Some(_) => Err(Halt::Syntax(at)),
    }
}

// The problem that all the tokens are.
#[tactic(auto, unfolding(kp_tree_parts::specs::Readers::whole_at, kp_tree_sections::specs::Givens::problem_at))]
fn whole_problem<'a>(
    bump: &'a Bump,
    alloc: Global,
    tokens: &Tokens<'_, 'a>,
) -> Result<ProblemNode<'a>, Halt>
    ensures { GivesAll tokens.now problem_view result (whole_at problem tokens.now) }
{
    let (problem, at) = problem(bump, alloc, tokens, 0, levels())?;
    match peek(tokens, at) {
        None => Ok(problem),
        Some(_) => Err(Halt::Syntax(at)),
    }
}

/// The tree of a domain file, from its bytes and its tokens.
///
/// The nodes lie in the arena, and nothing is taken from `alloc`. The file is refused with `Syntax` or
/// `Unsupported` at the first token that is wrong, or at the first bracket of the 65th level where that comes first.
pub fn parse_domain<'a>(
    bump: &'a Bump,
    alloc: Global,
    bytes: &[u8],
    tokens: &Row<Token>,
) -> Result<DomainNode<'a>, Stop>
    requires short { length bytes.now ≤ most_bytes }
    requires cut { Cut 0 bytes.now tokens.now }
    ensures answer { AnswersTokens parts.Domain domain domain_view bytes.now tokens.now result }
    ensures within { IfErr result (λ e. IsToldWithin bytes.now e) }
{
    let spans = tokens.slice();
    let tokens = tokens_in(bump, bytes, spans)?;
    match whole_domain(bump, &tokens) {
        Ok(domain) => Ok(domain),
        Err(halt) => Err(told(Part::Domain, bytes, spans, halt)),
    }
}

/// The tree of a problem file, from its bytes and its tokens.
///
/// The nodes lie in the arena; `alloc` is given back before the end. The file is refused with `Syntax` or
/// `Unsupported` at the first token that is wrong, or at the first bracket of the 65th level where that comes first.
pub fn parse_problem<'a>(
    bump: &'a Bump,
    alloc: Global,
    bytes: &[u8],
    tokens: &Row<Token>,
) -> Result<ProblemNode<'a>, Stop>
    requires short { length bytes.now ≤ most_bytes }
    requires cut { Cut 0 bytes.now tokens.now }
    ensures answer { AnswersTokens parts.Problem problem problem_view bytes.now tokens.now result }
    ensures within { IfErr result (λ e. IsToldWithin bytes.now e) }
{
    let spans = tokens.slice();
    let tokens = tokens_in(bump, bytes, spans)?;
    match whole_problem(bump, alloc, &tokens) {
        Ok(problem) => Ok(problem),
        Err(halt) => Err(told(Part::Problem, bytes, spans, halt)),
    }
}
