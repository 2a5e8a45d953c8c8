ghost use Rattle.std.specs.Prelude.{◌≡◌, ◌<◌, ◌≤◌, ◌++◌, length, map, IfOk, OnOk};
ghost use Rattle.kp_tree_grammar.specs.Sorts.{with_kinds};
ghost use Rattle.kp_tree_parts.specs.Lexemes.{word_of, from};
ghost use Rattle.kp_tree_arena.specs.Nodes.{word_view, typed_view};
ghost use Rattle.kp_tree_parts.specs.Readers.{Gives, names_at, either_names_at, either_at, kind_at, kind_part_at, group_at, typed_at, typed_bracket_at};

use crate::lexeme::{word, word_node};
use crate::runs::keep_words;
use bumpalo::Bump;
use bumpalo::collections::into_bump_slice;
use kp_base::Memory;
use kp_tree_arena::{TypedNode, WordNode};
use kp_tree_cursor::{
    Class, Halt, Lead, Tokens, begins, close, follow, is_left, open, peek, words,
};
use kp_tree_grammar::Symbol;

// Name+
fn names<'a>(
    bump: &'a Bump,
    tokens: &Tokens<'_, 'a>,
    at: usize,
) -> Result<(&'a [WordNode<'a>], usize), Halt>
    requires { at ≤ length tokens.now }
    ensures reads { Gives tokens.now (λ s. map word_view s.now) result (names_at (from tokens.now at)) }
    ensures onward { IfOk result (λ x. (at < x.1) × (x.1 ≤ length tokens.now)) }
{
    let run = words(tokens, at, Class::Name)?;
    Ok((keep_words(bump, &run)?, at + run.len()))
}

// either Name+
#[tactic(auto, unfolding(crate::specs::Readers::either_names_at, crate::specs::Readers::names_at))]
fn either_names<'a>(
    bump: &'a Bump,
    tokens: &Tokens<'_, 'a>,
    at: usize,
) -> Result<(&'a [WordNode<'a>], usize), Halt>
    ensures reads { Gives tokens.now (λ s. map word_view s.now) result (either_names_at (from tokens.now at)) }
    ensures onward { IfOk result (λ x. (at < x.1) × (x.1 ≤ length tokens.now)) }
{
    let at = follow(tokens, at, Lead::Either)?;
    names(bump, tokens, at)
}

// ( either Name+ )
#[tactic(auto, unfolding(crate::specs::Readers::either_at, crate::specs::Readers::either_names_at))]
fn either<'a>(
    bump: &'a Bump,
    tokens: &Tokens<'_, 'a>,
    at: usize,
    levels: u32,
) -> Result<(&'a [WordNode<'a>], usize), Halt>
    ensures reads { Gives tokens.now (λ s. map word_view s.now) result (either_at levels (from tokens.now at)) }
    ensures onward { IfOk result (λ x. (at < x.1) × (x.1 ≤ length tokens.now)) }
{
    let (at, _) = open(tokens, at, levels)?;
    let (kinds, at) = either_names(bump, tokens, at)?;
    let at = close(tokens, at)?;
    Ok((kinds, at))
}

// Name, or ( either Name+ )
#[tactic(auto, using(crate::proofs::Cases::kind_is), unfolding(crate::specs::Readers::either_at, crate::specs::Readers::kind_at, kp_tree_cursor::specs::Readers::word_at))]
fn kind<'a>(
    bump: &'a Bump,
    tokens: &Tokens<'_, 'a>,
    at: usize,
    levels: u32,
) -> Result<(&'a [WordNode<'a>], usize), Halt>
    ensures reads { Gives tokens.now (λ s. map word_view s.now) result (kind_at levels (from tokens.now at)) }
    ensures onward { IfOk result (λ x. (at < x.1) × (x.1 ≤ length tokens.now)) }
{
    if is_left(tokens, at) {
        return either(bump, tokens, at, levels);
    }
    let (name, at) = word(tokens, at, Class::Name)?;
    Ok((bump.try_alloc_slice_copy(&[name])?, at))
}

// [- kind]
#[tactic(auto, unfolding(crate::specs::Readers::kind_part_at, crate::specs::Readers::kind_at))]
fn kind_part<'a>(
    bump: &'a Bump,
    tokens: &Tokens<'_, 'a>,
    at: usize,
    levels: u32,
) -> Result<(&'a [WordNode<'a>], usize), Halt>
    requires { at ≤ length tokens.now }
    ensures reads { Gives tokens.now (λ s. map word_view s.now) result (kind_part_at levels (from tokens.now at)) }
    ensures onward { IfOk result (λ x. (at ≤ x.1) × (x.1 ≤ length tokens.now)) }
{
    match peek(tokens, at) {
        Some(first) if matches!(first.symbol, Symbol::Dash) => {
            kind(bump, tokens, at + 1, levels)
        }
        _ => Ok((&[], at)),
    }
}

// Words of the class, and the kinds that are written for them.
#[tactic(auto, unfolding(crate::specs::Readers::group_at, kp_tree_cursor::specs::Readers::some_at, crate::specs::Readers::kind_part_at))]
fn group<'t, 'a>(
    bump: &'a Bump,
    tokens: &Tokens<'t, 'a>,
    at: usize,
    levels: u32,
    class: Class,
) -> Result<((Tokens<'t, 'a>, &'a [WordNode<'a>]), usize), Halt>
    requires { at ≤ length tokens.now }
    ensures reads { Gives tokens.now (λ x. with_kinds (map word_view x.1.now) (map word_of x.0)) result (group_at class levels (from tokens.now at)) }
    ensures onward { IfOk result (λ x. (at < x.1) × (x.1 ≤ length tokens.now)) }
{
    let run = words(tokens, at, class)?;
    let (kinds, at) = kind_part(bump, tokens, at + run.len(), levels)?;
    Ok(((run, kinds), at))
}

// Adds the words of a group, each with the kinds of the group.
fn declare<'a>(
    typed: &mut Vec<TypedNode<'a>, &'a Bump>,
    run: &Tokens<'_, 'a>,
    kinds: &'a [WordNode<'a>],
) -> Result<(), Memory>
    ensures { OnOk result (map typed_view typed.new.items ≡ map typed_view typed.old.items ++ with_kinds (map word_view kinds.now) (map word_of run.now)) }
{
    let mut at = 0;
    'each: while let Some(token) = peek(run, at) {
        typed.push(TypedNode {
            word: word_node(&token),
            kinds,
        })?;
        at += 1;
    }
    Ok(())
}

/// Groups of words of the class, each with its kinds, as many as stand there.
pub fn typed<'a>(
    bump: &'a Bump,
    tokens: &Tokens<'_, 'a>,
    start: usize,
    levels: u32,
    class: Class,
) -> Result<(Vec<TypedNode<'a>, &'a Bump>, usize), Halt>
    requires { start ≤ length tokens.now }
    ensures reads { Gives tokens.now (λ v. map typed_view v.items) result (typed_at class levels (from tokens.now start)) }
    ensures onward { IfOk result (λ x. (start ≤ x.1) × (x.1 ≤ length tokens.now)) }
{
    let mut typed = Vec::new(bump);
    let mut at = start;
    'more: while begins(tokens, at, class) {
        let ((run, kinds), after) = group(bump, tokens, at, levels, class)?;
        declare(&mut typed, &run, kinds)?;
        at = after;
    }
    Ok((typed, at))
}

/// Variables with their kinds between brackets.
#[tactic(auto, unfolding(crate::specs::Readers::typed_bracket_at, crate::specs::Readers::typed_at))]
pub fn variables<'a>(
    bump: &'a Bump,
    tokens: &Tokens<'_, 'a>,
    at: usize,
    levels: u32,
) -> Result<(&'a [TypedNode<'a>], usize), Halt>
    ensures reads { Gives tokens.now (λ s. map typed_view s.now) result (typed_bracket_at levels (from tokens.now at)) }
    ensures onward { IfOk result (λ x. (at < x.1) × (x.1 ≤ length tokens.now)) }
{
    let (at, levels) = open(tokens, at, levels)?;
    let (typed, at) = typed(bump, tokens, at, levels, Class::Variable)?;
    let at = close(tokens, at)?;
    Ok((into_bump_slice(typed), at))
}
