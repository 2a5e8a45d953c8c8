ghost use Rattle.std.specs.Prelude.{◌≡◌, ◌<◌, ◌≤◌, true, length, map, IfOk};
ghost use Rattle.kp_tree_grammar.specs.Symbols.{first_is, is_equal};
ghost use Rattle.kp_tree_grammar.specs.Trees.{Cond, no_cond};
ghost use Rattle.kp_tree_parts.specs.Lexemes.{from};
ghost use Rattle.kp_tree_arena.specs.Nodes.{cond_view};
ghost use Rattle.kp_tree_parts.specs.Readers.{Gives, terms_class, test_at, denied_at, cond_at, cond_inside_at, conds_at};

use crate::ahead::parts_ahead;
use crate::atoms::{body, equality};
use crate::runs::add;
use bumpalo::Bump;
use bumpalo::collections::into_bump_slice;
use kp_tree_arena::CondNode;
use kp_tree_cursor::{Class, Halt, Tokens, close, is_left, open, peek};
use kp_tree_grammar::Symbol;

/// What a condition is read as.
#[derive(Clone, Copy, Debug, PartialEq, Eq)]
pub enum Role {
    /// A condition of an action, with variables and equalities.
    Condition,
    /// A goal, of facts alone.
    Goal,
}

// What the terms of an atom may be.
fn terms_class(role: Role) -> Class
    ensures { result ≡ terms_class role }
{
    match role {
        Role::Condition => Class::Term,
        Role::Goal => Class::Name,
    }
}

/// The condition that always holds.
pub fn no_condition<'a>() -> CondNode<'a>
    ensures { cond_view result ≡ Cond.all no_cond }
{
    CondNode::All(&[])
}

// = term term, which no goal has.
#[tactic(auto, unfolding(crate::specs::Readers::test_at, crate::specs::Readers::equality_at))]
fn same<'a>(
    tokens: &Tokens<'_, 'a>,
    at: usize,
    levels: u32,
    role: Role,
    positive: bool,
) -> Result<(CondNode<'a>, usize), Halt>
    requires { first_is is_equal (from tokens.now at) ≡ true }
    ensures reads { Gives tokens.now cond_view result (test_at role positive levels (from tokens.now at)) }
    ensures onward { IfOk result (λ x. (at < x.1) × (x.1 ≤ length tokens.now)) }
{
    match role {
        Role::Condition => {
            let ((left, right), at) = equality(tokens, at)?;
            Ok((CondNode::Same(positive, left, right), at))
        }
        Role::Goal => Err(Halt::Unsupported(at)),
    }
}

// A test: a head and its terms, or an equality.
#[tactic(auto, unfolding(crate::specs::Readers::test_at, crate::specs::Readers::body_at))]
fn test<'a>(
    bump: &'a Bump,
    tokens: &Tokens<'_, 'a>,
    at: usize,
    levels: u32,
    role: Role,
    positive: bool,
) -> Result<(CondNode<'a>, usize), Halt>
    ensures reads { Gives tokens.now cond_view result (test_at role positive levels (from tokens.now at)) }
    ensures onward { IfOk result (λ x. (at < x.1) × (x.1 ≤ length tokens.now)) }
{
    let Some(first) = peek(tokens, at) else {
        return Err(Halt::Syntax(at));
    };
    match first.symbol {
        Symbol::Equal => same(tokens, at, levels, role, positive),
        Symbol::Or | Symbol::Imply | Symbol::Exists | Symbol::Forall | Symbol::Preference => {
            Err(Halt::Unsupported(at))
        }
        _ => {
            let (atom, at) = body(bump, tokens, at, terms_class(role))?;
            Ok((CondNode::Atom(positive, atom), at))
        }
    }
}

// The test of a negation, between its brackets.
#[tactic(auto, unfolding(crate::specs::Readers::denied_at, crate::specs::Readers::test_at))]
fn denied<'a>(
    bump: &'a Bump,
    tokens: &Tokens<'_, 'a>,
    at: usize,
    levels: u32,
    role: Role,
) -> Result<(CondNode<'a>, usize), Halt>
    ensures reads { Gives tokens.now cond_view result (denied_at role levels (from tokens.now at)) }
    ensures onward { IfOk result (λ x. (at < x.1) × (x.1 ≤ length tokens.now)) }
{
    let (at, levels) = open(tokens, at, levels)?;
    let (test, at) = test(bump, tokens, at, levels, role, false)?;
    let at = close(tokens, at)?;
    Ok((test, at))
}

/// A condition or a goal, and the place behind it.
#[cycle(cond)]
#[tactic(auto, unfolding(crate::specs::Readers::cond_at, crate::specs::Readers::cond_inside_at))]
pub fn cond<'a>(
    bump: &'a Bump,
    tokens: &Tokens<'_, 'a>,
    at: usize,
    levels: u32,
    role: Role,
) -> Result<(CondNode<'a>, usize), Halt>
    ensures reads { Gives tokens.now cond_view result (cond_at role levels (from tokens.now at)) }
    ensures onward { IfOk result (λ x. (at < x.1) × (x.1 ≤ length tokens.now)) }
{
    let (at, levels) = open(tokens, at, levels)?;
    let (tree, at) = inside(bump, tokens, at, levels, role)?;
    let at = close(tokens, at)?;
    Ok((tree, at))
}

// What stands between its brackets.
#[cycle(cond)]
#[tactic(auto, unfolding(crate::specs::Readers::cond_inside_at, crate::specs::Readers::conds_at, crate::specs::Readers::denied_at, crate::specs::Readers::test_at))]
fn inside<'a>(
    bump: &'a Bump,
    tokens: &Tokens<'_, 'a>,
    at: usize,
    levels: u32,
    role: Role,
) -> Result<(CondNode<'a>, usize), Halt>
    requires { at ≤ length tokens.now }
    ensures reads { Gives tokens.now cond_view result (cond_inside_at role levels (from tokens.now at)) }
    ensures onward { IfOk result (λ x. (at ≤ x.1) × (x.1 ≤ length tokens.now)) }
{
    let Some(first) = peek(tokens, at) else {
        return Err(Halt::Syntax(at));
    };
    match first.symbol {
        Symbol::Right => Ok((no_condition(), at)),
        Symbol::And => {
            let (parts, at) = conds(bump, tokens, at + 1, levels, role)?;
            Ok((CondNode::All(parts), at))
        }
        Symbol::Not => denied(bump, tokens, at + 1, levels, role),
        _ => test(bump, tokens, at, levels, role, true),
    }
}

// Conditions or goals, as many as stand there.
#[cycle(cond)]
fn conds<'a>(
    bump: &'a Bump,
    tokens: &Tokens<'_, 'a>,
    start: usize,
    levels: u32,
    role: Role,
) -> Result<(&'a [CondNode<'a>], usize), Halt>
    requires { start ≤ length tokens.now }
    ensures reads { Gives tokens.now (λ s. map cond_view s.now) result (conds_at role levels (from tokens.now start)) }
    ensures onward { IfOk result (λ x. (start ≤ x.1) × (x.1 ≤ length tokens.now)) }
{
    let mut parts = Vec::with_capacity(bump, parts_ahead(tokens, start))?;
    let mut at = start;
    'more: while is_left(tokens, at) {
        let (part, after) = cond(bump, tokens, at, levels, role)?;
        add(&mut parts, part)?;
        at = after;
    }
    Ok((into_bump_slice(parts), at))
}
