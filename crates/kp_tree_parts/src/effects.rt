ghost use Rattle.std.specs.Prelude.{◌≡◌, ◌<◌, ◌≤◌, length, map, IfOk};
ghost use Rattle.kp_tree_grammar.specs.Trees.{Eff, no_eff};
ghost use Rattle.kp_tree_parts.specs.Lexemes.{from};
ghost use Rattle.kp_tree_arena.specs.Nodes.{typed_view, cond_view, eff_view};
ghost use Rattle.kp_tree_parts.specs.Readers.{Gives, eff_at, eff_inside_at, when_at, each_at, effs_at};

use crate::ahead::parts_ahead;
use crate::atoms::{atom, body};
use crate::conds::{Role, cond};
use crate::runs::add;
use crate::typed_lists::variables;
use bumpalo::Bump;
use bumpalo::collections::into_bump_slice;
use kp_base::Memory;
use kp_tree_arena::{CondNode, EffNode, TypedNode};
use kp_tree_cursor::{Class, Halt, Tokens, close, is_left, open, peek};
use kp_tree_grammar::Symbol;

/// The effect that does nothing.
pub fn no_effect<'a>() -> EffNode<'a>
    ensures { eff_view result ≡ Eff.both no_eff }
{
    EffNode::All(&[])
}

/// An effect, and the place behind it.
#[cycle(eff)]
#[tactic(auto, unfolding(crate::specs::Readers::eff_at, crate::specs::Readers::eff_inside_at))]
pub fn eff<'a>(
    bump: &'a Bump,
    tokens: &Tokens<'_, 'a>,
    at: usize,
    levels: u32,
) -> Result<(EffNode<'a>, usize), Halt>
    ensures reads { Gives tokens.now eff_view result (eff_at levels (from tokens.now at)) }
    ensures onward { IfOk result (λ x. (at < x.1) × (x.1 ≤ length tokens.now)) }
{
    let (at, levels) = open(tokens, at, levels)?;
    let (tree, at) = inside(bump, tokens, at, levels)?;
    let at = close(tokens, at)?;
    Ok((tree, at))
}

// What stands between its brackets.
#[cycle(eff)]
#[tactic(auto, unfolding(crate::specs::Readers::eff_inside_at, crate::specs::Readers::effs_at, crate::specs::Readers::when_at, crate::specs::Readers::each_at, crate::specs::Readers::atom_at))]
fn inside<'a>(
    bump: &'a Bump,
    tokens: &Tokens<'_, 'a>,
    at: usize,
    levels: u32,
) -> Result<(EffNode<'a>, usize), Halt>
    requires { at ≤ length tokens.now }
    ensures reads { Gives tokens.now eff_view result (eff_inside_at levels (from tokens.now at)) }
    ensures onward { IfOk result (λ x. (at ≤ x.1) × (x.1 ≤ length tokens.now)) }
{
    let Some(first) = peek(tokens, at) else {
        return Err(Halt::Syntax(at));
    };
    match first.symbol {
        Symbol::Right => Ok((no_effect(), at)),
        Symbol::And => {
            let (parts, at) = effs(bump, tokens, at + 1, levels)?;
            Ok((EffNode::All(parts), at))
        }
        Symbol::When => when(bump, tokens, at + 1, levels),
        Symbol::Forall => each(bump, tokens, at + 1, levels),
        Symbol::Not => {
            let (atom, at) = atom(bump, tokens, at + 1, levels, Class::Term)?;
            Ok((EffNode::Atom(false, atom), at))
        }
        Symbol::OneOf
        | Symbol::Or
        | Symbol::Probabilistic
        | Symbol::Increase
        | Symbol::Decrease
        | Symbol::Assign
        | Symbol::ScaleUp
        | Symbol::ScaleDown => Err(Halt::Unsupported(at)),
        _ => {
            let (atom, at) = body(bump, tokens, at, Class::Term)?;
            Ok((EffNode::Atom(true, atom), at))
        }
    }
}

// The effect under the condition.
fn under<'a>(
    bump: &'a Bump,
    condition: CondNode<'a>,
    body: EffNode<'a>,
) -> Result<EffNode<'a>, Memory>
    ensures { IfOk result (λ e. eff_view e ≡ Eff.when (cond_view condition.entry) (eff_view body.entry)) }
{
    Ok(EffNode::When(condition, bump.try_alloc(body)?))
}

// The effect for all objects of the variables' types.
fn over<'a>(
    bump: &'a Bump,
    variables: &'a [TypedNode<'a>],
    body: EffNode<'a>,
) -> Result<EffNode<'a>, Memory>
    ensures { IfOk result (λ e. eff_view e ≡ Eff.each (map typed_view variables.now) (eff_view body.entry)) }
{
    Ok(EffNode::Each(variables, bump.try_alloc(body)?))
}

// The condition of a conditional effect, and the effect.
#[cycle(eff)]
#[tactic(auto, unfolding(crate::specs::Readers::when_at, crate::specs::Readers::cond_at, crate::specs::Readers::eff_at))]
fn when<'a>(
    bump: &'a Bump,
    tokens: &Tokens<'_, 'a>,
    at: usize,
    levels: u32,
) -> Result<(EffNode<'a>, usize), Halt>
    ensures reads { Gives tokens.now eff_view result (when_at levels (from tokens.now at)) }
    ensures onward { IfOk result (λ x. (at < x.1) × (x.1 ≤ length tokens.now)) }
{
    let (condition, at) = cond(bump, tokens, at, levels, Role::Condition)?;
    let (body, at) = eff(bump, tokens, at, levels)?;
    Ok((under(bump, condition, body)?, at))
}

// The variables of an effect for all objects, and the effect.
#[cycle(eff)]
#[tactic(auto, unfolding(crate::specs::Readers::each_at, crate::specs::Readers::typed_bracket_at, crate::specs::Readers::eff_at))]
fn each<'a>(
    bump: &'a Bump,
    tokens: &Tokens<'_, 'a>,
    at: usize,
    levels: u32,
) -> Result<(EffNode<'a>, usize), Halt>
    ensures reads { Gives tokens.now eff_view result (each_at levels (from tokens.now at)) }
    ensures onward { IfOk result (λ x. (at < x.1) × (x.1 ≤ length tokens.now)) }
{
    let (variables, at) = variables(bump, tokens, at, levels)?;
    let (body, at) = eff(bump, tokens, at, levels)?;
    Ok((over(bump, variables, body)?, at))
}

// Effects, as many as stand there.
#[cycle(eff)]
fn effs<'a>(
    bump: &'a Bump,
    tokens: &Tokens<'_, 'a>,
    start: usize,
    levels: u32,
) -> Result<(&'a [EffNode<'a>], usize), Halt>
    requires { start ≤ length tokens.now }
    ensures reads { Gives tokens.now (λ s. map eff_view s.now) result (effs_at levels (from tokens.now start)) }
    ensures onward { IfOk result (λ x. (start ≤ x.1) × (x.1 ≤ length tokens.now)) }
{
    let mut parts = Vec::with_capacity(bump, parts_ahead(tokens, start))?;
    let mut at = start;
    'more: while is_left(tokens, at) {
        let (part, after) = eff(bump, tokens, at, levels)?;
        add(&mut parts, part)?;
        at = after;
    }
    Ok((into_bump_slice(parts), at))
}
