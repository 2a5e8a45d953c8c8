ghost use Rattle.std.specs.Prelude.{◌<◌, ◌≤◌, length, IfOk};
ghost use Rattle.kp_tree_parts.specs.Lexemes.{from};
ghost use Rattle.kp_tree_arena.specs.Nodes.{term_view, atom_view};
ghost use Rattle.kp_tree_parts.specs.Readers.{Gives, term_at, equality_at, body_at, atom_at};

use crate::lexeme::{term_node, word};
use crate::runs::terms;
use bumpalo::Bump;
use kp_tree_arena::{AtomNode, TermNode};
use kp_tree_cursor::{Class, Halt, Lead, Tokens, close, follow, has, open, peek};

// A name or a variable.
#[tactic(auto, unfolding(crate::specs::Readers::term_at))]
fn term<'a>(tokens: &Tokens<'_, 'a>, at: usize) -> Result<(TermNode<'a>, usize), Halt>
    ensures reads { Gives tokens.now term_view result (term_at (from tokens.now at)) }
    ensures onward { IfOk result (λ x. (at < x.1) × (x.1 ≤ length tokens.now)) }
{
    match peek(tokens, at) {
        Some(first) if has(Class::Term, first.symbol) => Ok((term_node(&first), at + 1)),
        _ => Err(Halt::Syntax(at)),
    }
}

/// = term term
#[tactic(auto, unfolding(crate::specs::Readers::equality_at, crate::specs::Readers::term_at))]
pub fn equality<'a>(
    tokens: &Tokens<'_, 'a>,
    at: usize,
) -> Result<((TermNode<'a>, TermNode<'a>), usize), Halt>
    ensures reads { Gives tokens.now (λ x. (term_view x.0, term_view x.1)) result (equality_at (from tokens.now at)) }
    ensures onward { IfOk result (λ x. (at < x.1) × (x.1 ≤ length tokens.now)) }
{
    let at = follow(tokens, at, Lead::Equal)?;
    let (left, at) = term(tokens, at)?;
    let (right, at) = term(tokens, at)?;
    Ok(((left, right), at))
}

/// A head and its terms, each of the class.
#[tactic(auto, unfolding(crate::specs::Readers::body_at, kp_tree_cursor::specs::Readers::word_at, crate::specs::Readers::terms_at))]
pub fn body<'a>(
    bump: &'a Bump,
    tokens: &Tokens<'_, 'a>,
    at: usize,
    class: Class,
) -> Result<(AtomNode<'a>, usize), Halt>
    ensures reads { Gives tokens.now atom_view result (body_at class (from tokens.now at)) }
    ensures onward { IfOk result (λ x. (at < x.1) × (x.1 ≤ length tokens.now)) }
{
    let (head, at) = word(tokens, at, Class::Head)?;
    let (terms, at) = terms(bump, tokens, at, class)?;
    Ok((AtomNode { head, terms }, at))
}

/// The same between brackets.
#[tactic(auto, unfolding(crate::specs::Readers::atom_at, crate::specs::Readers::body_at))]
pub fn atom<'a>(
    bump: &'a Bump,
    tokens: &Tokens<'_, 'a>,
    at: usize,
    levels: u32,
    class: Class,
) -> Result<(AtomNode<'a>, usize), Halt>
    ensures reads { Gives tokens.now atom_view result (atom_at class levels (from tokens.now at)) }
    ensures onward { IfOk result (λ x. (at < x.1) × (x.1 ≤ length tokens.now)) }
{
    let (at, _) = open(tokens, at, levels)?;
    let (atom, at) = body(bump, tokens, at, class)?;
    let at = close(tokens, at)?;
    Ok((atom, at))
}
