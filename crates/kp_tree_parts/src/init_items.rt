ghost use Rattle.std.specs.Prelude.{◌≡◌, ◌<◌, ◌≤◌, ◌∷◌, length, map, IfOk};
ghost use Rattle.kp_tree_grammar.specs.declared.symbol.Symbol.TheVariants as symbols;
ghost use Rattle.kp_tree_parts.specs.Lexemes.{tok, from};
ghost use Rattle.kp_tree_arena.specs.Nodes.{item_view, lit_view};
ghost use Rattle.kp_tree_parts.specs.Readers.{Gives, lit_at, lit_inside_at, lits_at, item_at, item_inside_at, all_at, items_at};

use crate::ahead::parts_ahead;
use crate::atoms::{atom, body};
use crate::lexeme::word_node;
use crate::runs::add;
use bumpalo::Bump;
use bumpalo::collections::into_bump_slice;
use kp_tree_arena::{ItemNode, LitNode};
use kp_tree_cursor::{Class, Halt, Lexeme, Tokens, close, is_left, open, peek};
use kp_tree_grammar::Symbol;

// What stands between the brackets of a literal of `oneof` or `or`.
#[tactic(auto, unfolding(crate::specs::Readers::lit_inside_at, crate::specs::Readers::atom_at))]
fn lit_inside<'a>(
    bump: &'a Bump,
    tokens: &Tokens<'_, 'a>,
    at: usize,
    levels: u32,
) -> Result<(LitNode<'a>, usize), Halt>
    ensures reads { Gives tokens.now lit_view result (lit_inside_at levels (from tokens.now at)) }
    ensures onward { IfOk result (λ x. (at < x.1) × (x.1 ≤ length tokens.now)) }
{
    let Some(first) = peek(tokens, at) else {
        return Err(Halt::Syntax(at));
    };
    match first.symbol {
        Symbol::Not => {
            let (atom, at) = atom(bump, tokens, at + 1, levels, Class::Name)?;
            let positive = false;
            Ok((LitNode { positive, atom }, at))
        }
        Symbol::And | Symbol::Or | Symbol::OneOf | Symbol::Forall => Err(Halt::Unsupported(at)),
        _ => {
            let (atom, at) = body(bump, tokens, at, Class::Name)?;
            let positive = true;
            Ok((LitNode { positive, atom }, at))
        }
    }
}

// A literal of `oneof` or `or`.
#[tactic(auto, unfolding(crate::specs::Readers::lit_at, crate::specs::Readers::lit_inside_at))]
fn lit<'a>(
    bump: &'a Bump,
    tokens: &Tokens<'_, 'a>,
    at: usize,
    levels: u32,
) -> Result<(LitNode<'a>, usize), Halt>
    ensures reads { Gives tokens.now lit_view result (lit_at levels (from tokens.now at)) }
    ensures onward { IfOk result (λ x. (at < x.1) × (x.1 ≤ length tokens.now)) }
{
    let (at, levels) = open(tokens, at, levels)?;
    let (lit, at) = lit_inside(bump, tokens, at, levels)?;
    let at = close(tokens, at)?;
    Ok((lit, at))
}

// Such literals, as many as stand there.
fn lits<'a>(
    bump: &'a Bump,
    tokens: &Tokens<'_, 'a>,
    start: usize,
    levels: u32,
) -> Result<(&'a [LitNode<'a>], usize), Halt>
    requires { start ≤ length tokens.now }
    ensures reads { Gives tokens.now (λ s. map lit_view s.now) result (lits_at levels (from tokens.now start)) }
    ensures onward { IfOk result (λ x. (start ≤ x.1) × (x.1 ≤ length tokens.now)) }
{
    let mut parts = Vec::with_capacity(bump, parts_ahead(tokens, start))?;
    let mut at = start;
    'more: while is_left(tokens, at) {
        let (part, after) = lit(bump, tokens, at, levels)?;
        add(&mut parts, part)?;
        at = after;
    }
    Ok((into_bump_slice(parts), at))
}

// The atom behind the word `unknown`.
#[tactic(auto, unfolding(crate::specs::Readers::item_inside_at, crate::specs::Readers::atom_at))]
fn unknown<'a>(
    bump: &'a Bump,
    tokens: &Tokens<'_, 'a>,
    start: usize,
    levels: u32,
    word: &Lexeme<'a>,
) -> Result<(ItemNode<'a>, usize), Halt>
    requires { word.now.symbol ≡ symbols.Unknown }
    ensures reads { Gives tokens.now item_view result (item_inside_at levels (tok word.now ∷ from tokens.now start)) }
    ensures onward { IfOk result (λ x. (start < x.1) × (x.1 ≤ length tokens.now)) }
{
    let (atom, at) = atom(bump, tokens, start, levels, Class::Name)?;
    Ok((ItemNode::Unknown(word_node(word), atom), at))
}

// An item of `:init`.
#[cycle(item)]
#[tactic(auto, unfolding(crate::specs::Readers::item_at, crate::specs::Readers::item_inside_at))]
fn item<'a>(
    bump: &'a Bump,
    tokens: &Tokens<'_, 'a>,
    at: usize,
    levels: u32,
) -> Result<(ItemNode<'a>, usize), Halt>
    ensures reads { Gives tokens.now item_view result (item_at levels (from tokens.now at)) }
    ensures onward { IfOk result (λ x. (at < x.1) × (x.1 ≤ length tokens.now)) }
{
    let (at, levels) = open(tokens, at, levels)?;
    let (tree, at) = inside(bump, tokens, at, levels)?;
    let at = close(tokens, at)?;
    Ok((tree, at))
}

// What stands between its brackets.
#[cycle(item)]
#[tactic(auto, unfolding(crate::specs::Readers::item_inside_at, crate::specs::Readers::all_at, crate::specs::Readers::lits_at, crate::specs::Readers::atom_at))]
fn inside<'a>(
    bump: &'a Bump,
    tokens: &Tokens<'_, 'a>,
    at: usize,
    levels: u32,
) -> Result<(ItemNode<'a>, usize), Halt>
    ensures reads { Gives tokens.now item_view result (item_inside_at levels (from tokens.now at)) }
    ensures onward { IfOk result (λ x. (at < x.1) × (x.1 ≤ length tokens.now)) }
{
    let Some(first) = peek(tokens, at) else {
        return Err(Halt::Syntax(at));
    };
    match first.symbol {
        Symbol::And => all(bump, tokens, at + 1, levels),
        Symbol::Not => {
            let (atom, at) = atom(bump, tokens, at + 1, levels, Class::Name)?;
            Ok((ItemNode::Lit(false, atom), at))
        }
        Symbol::OneOf => {
            let (lits, at) = lits(bump, tokens, at + 1, levels)?;
            Ok((ItemNode::OneOf(word_node(&first), lits), at))
        }
        Symbol::Or => {
            let (lits, at) = lits(bump, tokens, at + 1, levels)?;
            Ok((ItemNode::AnyOf(word_node(&first), lits), at))
        }
        Symbol::Unknown => unknown(bump, tokens, at + 1, levels, &first),
        Symbol::Forall | Symbol::Equal => Err(Halt::Unsupported(at)),
        _ => {
            let (atom, at) = body(bump, tokens, at, Class::Name)?;
            Ok((ItemNode::Lit(true, atom), at))
        }
    }
}

// The items behind the word `and`.
#[cycle(item)]
#[tactic(auto, unfolding(crate::specs::Readers::all_at, crate::specs::Readers::items_at))]
fn all<'a>(
    bump: &'a Bump,
    tokens: &Tokens<'_, 'a>,
    start: usize,
    levels: u32,
) -> Result<(ItemNode<'a>, usize), Halt>
    requires { start ≤ length tokens.now }
    ensures reads { Gives tokens.now item_view result (all_at levels (from tokens.now start)) }
    ensures onward { IfOk result (λ x. (start ≤ x.1) × (x.1 ≤ length tokens.now)) }
{
    let (parts, at) = items(bump, tokens, start, levels)?;
    Ok((ItemNode::All(into_bump_slice(parts)), at))
}

/// Items of `:init`, as many as stand there.
#[cycle(item)]
pub fn items<'a>(
    bump: &'a Bump,
    tokens: &Tokens<'_, 'a>,
    start: usize,
    levels: u32,
) -> Result<(Vec<ItemNode<'a>, &'a Bump>, usize), Halt>
    requires { start ≤ length tokens.now }
    ensures reads { Gives tokens.now (λ v. map item_view v.items) result (items_at levels (from tokens.now start)) }
    ensures onward { IfOk result (λ x. (start ≤ x.1) × (x.1 ≤ length tokens.now)) }
{
    let mut parts = Vec::with_capacity(bump, parts_ahead(tokens, start))?;
    let mut at = start;
    'more: while is_left(tokens, at) {
        let (part, after) = item(bump, tokens, at, levels)?;
        add(&mut parts, part)?;
        at = after;
    }
    Ok((parts, at))
}
