ghost use Rattle.std.specs.Prelude.{◌≡◌, ◌<◌, ◌≤◌, length, IfOk};
ghost use Rattle.kp_lex.specs.Cutting.{Cut};
ghost use Rattle.kp_tree_grammar.specs.Symbols.{all_seen_in};
ghost use Rattle.kp_tree_arena.specs.Nodes.{word_view, term_view};
ghost use Rattle.kp_tree_parts.specs.Lexemes.{tok, from, word_of, term_of};
ghost use Rattle.kp_tree_parts.specs.Readers.{Gives, word_at};

use bumpalo::Bump;
use bumpalo::collections::into_bump_slice;
use kp_lex::Token;
use kp_tree_arena::{TermNode, WordNode};
use kp_tree_cursor::{Class, Halt, Lexeme, Tokens, has, lower_case, peek};
use kp_tree_grammar::Symbol;
use std::alloc::AllocError;

/// The tokens of a text as the grammar sees them, their words in the arena.
pub fn tokens_in<'t, 'a>(
    bump: &'a Bump,
    bytes: &[u8],
    spans: &'t [Token],
) -> Result<Tokens<'t, 'a>, AllocError>
    requires { Cut 0 bytes.now spans.now }
    ensures { IfOk result (λ tokens. tokens ≡ all_seen_in bytes.now spans.now) }
{
    let lower = lower_case(bump, bytes)?;
    Ok(Tokens::new(into_bump_slice(lower), spans))
}

/// The word that a token is.
pub fn word_node<'a>(token: &Lexeme<'a>) -> WordNode<'a>
    ensures { word_view result ≡ word_of (tok token.now) }
{
    WordNode {
        text: token.text,
        byte: token.byte,
    }
}

/// The term that a token is: a variable, or else a name.
pub fn term_node<'a>(token: &Lexeme<'a>) -> TermNode<'a>
    ensures { term_view result ≡ term_of (tok token.now) }
{
    match token.symbol {
        Symbol::Variable => TermNode::Variable(word_node(token)),
        _ => TermNode::Name(word_node(token)),
    }
}

/// A token of the class, and the place behind it.
#[tactic(auto, unfolding(kp_tree_cursor::specs::Readers::word_at))]
pub fn word<'a>(
    tokens: &Tokens<'_, 'a>,
    at: usize,
    class: Class,
) -> Result<(WordNode<'a>, usize), Halt>
    ensures reads { Gives tokens.now word_view result (word_at class (from tokens.now at)) }
    ensures onward { IfOk result (λ x. (at < x.1) × (x.1 ≤ length tokens.now)) }
{
    match peek(tokens, at) {
        Some(first) if has(class, first.symbol) => Ok((word_node(&first), at + 1)),
        _ => Err(Halt::Syntax(at)),
    }
}
