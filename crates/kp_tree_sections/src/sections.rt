ghost use Rattle.std.specs.Prelude.{◌<◌, ◌≤◌, length, map, IfOk};
ghost use Rattle.kp_tree_parts.specs.Lexemes.{from};
ghost use Rattle.kp_tree_arena.specs.Nodes.{typed_view, cond_view, eff_view, pred_view, schema_view};
ghost use Rattle.kp_tree_parts.specs.Readers.{Gives, Passes, pred_inside_at, pred_at, preds_at, params_at, precondition_at, effect_at, parts_end_at, schema_at};

use bumpalo::Bump;
use bumpalo::collections::into_bump_slice;
use kp_tree_arena::{CondNode, EffNode, PredNode, SchemaNode, TypedNode};
use kp_tree_grammar::Symbol;
use kp_tree_parts::{
    Class, Halt, Role, Tokens, add, close, cond, eff, is_left, no_condition, no_effect, open, peek,
    typed, variables, word,
};

// Head typed variables
#[tactic(auto, unfolding(kp_tree_parts::specs::Readers::pred_inside_at, kp_tree_cursor::specs::Readers::word_at, kp_tree_parts::specs::Readers::typed_at))]
fn pred_inside<'a>(
    bump: &'a Bump,
    tokens: &Tokens<'_, 'a>,
    at: usize,
    levels: u32,
) -> Result<(PredNode<'a>, usize), Halt>
    ensures reads { Gives tokens.now pred_view result (pred_inside_at levels (from tokens.now at)) }
    ensures onward { IfOk result (λ x. (at < x.1) × (x.1 ≤ length tokens.now)) }
{
    let (head, at) = word(tokens, at, Class::Head)?;
    let (params, at) = typed(bump, tokens, at, levels, Class::Variable)?;
    let params = into_bump_slice(params);
    Ok((PredNode { head, params }, at))
}

// ( Head typed variables )
#[tactic(auto, unfolding(kp_tree_parts::specs::Readers::pred_at, kp_tree_parts::specs::Readers::pred_inside_at))]
fn pred<'a>(
    bump: &'a Bump,
    tokens: &Tokens<'_, 'a>,
    at: usize,
    levels: u32,
) -> Result<(PredNode<'a>, usize), Halt>
    ensures reads { Gives tokens.now pred_view result (pred_at levels (from tokens.now at)) }
    ensures onward { IfOk result (λ x. (at < x.1) × (x.1 ≤ length tokens.now)) }
{
    let (at, levels) = open(tokens, at, levels)?;
    let (pred, at) = pred_inside(bump, tokens, at, levels)?;
    let at = close(tokens, at)?;
    Ok((pred, at))
}

/// Declarations of predicates, as many as stand there.
pub fn preds<'a>(
    bump: &'a Bump,
    tokens: &Tokens<'_, 'a>,
    start: usize,
    levels: u32,
) -> Result<(Vec<PredNode<'a>, &'a Bump>, usize), Halt>
    requires { start ≤ length tokens.now }
    ensures reads { Gives tokens.now (λ v. map pred_view v.items) result (preds_at levels (from tokens.now start)) }
    ensures onward { IfOk result (λ x. (start ≤ x.1) × (x.1 ≤ length tokens.now)) }
{
    let mut parts = Vec::new(bump);
    let mut at = start;
    'more: while is_left(tokens, at) {
        let (part, after) = pred(bump, tokens, at, levels)?;
        add(&mut parts, part)?;
        at = after;
    }
    Ok((parts, at))
}

// [:parameters ( typed variables )]
#[tactic(auto, unfolding(kp_tree_parts::specs::Readers::params_at, kp_tree_parts::specs::Readers::typed_bracket_at))]
fn params<'a>(
    bump: &'a Bump,
    tokens: &Tokens<'_, 'a>,
    at: usize,
    levels: u32,
) -> Result<(&'a [TypedNode<'a>], usize), Halt>
    requires { at ≤ length tokens.now }
    ensures reads { Gives tokens.now (λ s. map typed_view s.now) result (params_at levels (from tokens.now at)) }
    ensures onward { IfOk result (λ x. (at ≤ x.1) × (x.1 ≤ length tokens.now)) }
{
    match peek(tokens, at) {
        Some(first) if matches!(first.symbol, Symbol::Parameters) => {
            variables(bump, tokens, at + 1, levels)
        }
        _ => Ok((&[], at)),
    }
}

// [:precondition cond]
#[tactic(auto, unfolding(kp_tree_parts::specs::Readers::precondition_at, kp_tree_parts::specs::Readers::cond_at))]
fn precondition<'a>(
    bump: &'a Bump,
    tokens: &Tokens<'_, 'a>,
    at: usize,
    levels: u32,
) -> Result<(CondNode<'a>, usize), Halt>
    requires { at ≤ length tokens.now }
    ensures reads { Gives tokens.now cond_view result (precondition_at levels (from tokens.now at)) }
    ensures onward { IfOk result (λ x. (at ≤ x.1) × (x.1 ≤ length tokens.now)) }
{
    match peek(tokens, at) {
        Some(first) if matches!(first.symbol, Symbol::Precondition) => {
            cond(bump, tokens, at + 1, levels, Role::Condition)
        }
        _ => Ok((no_condition(), at)),
    }
}

// [:effect eff]
#[tactic(auto, unfolding(kp_tree_parts::specs::Readers::effect_at, kp_tree_parts::specs::Readers::eff_at))]
fn effect<'a>(
    bump: &'a Bump,
    tokens: &Tokens<'_, 'a>,
    at: usize,
    levels: u32,
) -> Result<(EffNode<'a>, usize), Halt>
    requires { at ≤ length tokens.now }
    ensures reads { Gives tokens.now eff_view result (effect_at levels (from tokens.now at)) }
    ensures onward { IfOk result (λ x. (at ≤ x.1) × (x.1 ≤ length tokens.now)) }
{
    match peek(tokens, at) {
        Some(first) if matches!(first.symbol, Symbol::Effect) => {
            eff(bump, tokens, at + 1, levels)
        }
        _ => Ok((no_effect(), at)),
    }
}

// Behind the parts of an action no further one stands that is known and not supported.
#[tactic(auto, unfolding(kp_tree_parts::specs::Readers::parts_end_at))]
fn parts_end(tokens: &Tokens, at: usize) -> Result<usize, Halt>
    requires { at ≤ length tokens.now }
    ensures reads { Passes tokens.now result (parts_end_at (from tokens.now at)) }
    ensures onward { IfOk result (λ n. (at ≤ n) × (n ≤ length tokens.now)) }
{
    match peek(tokens, at) {
        Some(first) if matches!(first.symbol, Symbol::Observe | Symbol::Vars) => {
            Err(Halt::Unsupported(at))
        }
        Some(_) => Ok(at),
        None => Err(Halt::Syntax(at)),
    }
}

/// Name [:parameters ( typed variables )] [:precondition cond] [:effect eff]
#[tactic(auto, unfolding(kp_tree_parts::specs::Readers::schema_at, kp_tree_cursor::specs::Readers::word_at, kp_tree_parts::specs::Readers::params_at, kp_tree_parts::specs::Readers::precondition_at, kp_tree_parts::specs::Readers::effect_at, kp_tree_parts::specs::Readers::parts_end_at))]
pub fn schema<'a>(
    bump: &'a Bump,
    tokens: &Tokens<'_, 'a>,
    at: usize,
    levels: u32,
) -> Result<(SchemaNode<'a>, usize), Halt>
    ensures reads { Gives tokens.now schema_view result (schema_at levels (from tokens.now at)) }
    ensures onward { IfOk result (λ x. (at < x.1) × (x.1 ≤ length tokens.now)) }
{
    let (name, at) = word(tokens, at, Class::Name)?;
    let (params, at) = params(bump, tokens, at, levels)?;
    let (pre, at) = precondition(bump, tokens, at, levels)?;
    let (effect, at) = effect(bump, tokens, at, levels)?;
    let at = parts_end(tokens, at)?;
    let schema = SchemaNode {
        name,
        params,
        pre,
        effect,
    };
    Ok((schema, at))
}
