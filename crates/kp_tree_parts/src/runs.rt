ghost use Rattle.std.specs.Prelude.{◌≡◌, ◌≤◌, ◌++◌, ◌∷◌, [], length, map, IfOk, OnOk};
ghost use Rattle.kp_tree_parts.specs.Lexemes.{word_of, term_of, from};
ghost use Rattle.kp_tree_arena.specs.Nodes.{word_view, term_view};
ghost use Rattle.kp_tree_parts.specs.Readers.{Gives, terms_at};

use crate::lexeme::{term_node, word_node};
use bumpalo::Bump;
use bumpalo::collections::into_bump_slice;
use kp_base::Memory;
use kp_tree_arena::{TermNode, WordNode};
use kp_tree_cursor::{Class, Halt, Tokens, peek, run};
use std::alloc::AllocError;

/// Terms, as many as stand there, and the place behind them.
pub fn terms<'a>(
    bump: &'a Bump,
    tokens: &Tokens<'_, 'a>,
    at: usize,
    class: Class,
) -> Result<(&'a [TermNode<'a>], usize), Halt>
    requires { at ≤ length tokens.now }
    ensures reads { Gives tokens.now (λ s. map term_view s.now) result (terms_at class (from tokens.now at)) }
    ensures onward { IfOk result (λ x. (at ≤ x.1) × (x.1 ≤ length tokens.now)) }
{
    let run = run(tokens, at, class);
    Ok((keep_terms(bump, &run)?, at + run.len()))
}

/// The words, in the arena.
pub fn keep_words<'a>(
    bump: &'a Bump,
    run: &Tokens<'_, 'a>,
) -> Result<&'a [WordNode<'a>], AllocError>
    ensures { IfOk result (λ s. map word_view s.now ≡ map word_of run.now) }
{
    let mut words = Vec::with_capacity(bump, run.len())?;
    let mut at = 0;
    'each: while let Some(token) = peek(run, at) {
        words.push(word_node(&token))?;
        at += 1;
    }
    Ok(into_bump_slice(words))
}

// The terms, in the arena.
fn keep_terms<'a>(bump: &'a Bump, run: &Tokens<'_, 'a>) -> Result<&'a [TermNode<'a>], AllocError>
    ensures { IfOk result (λ s. map term_view s.now ≡ map term_of run.now) }
{
    let mut terms = Vec::with_capacity(bump, run.len())?;
    let mut at = 0;
    'each: while let Some(token) = peek(run, at) {
        terms.push(term_node(&token))?;
        at += 1;
    }
    Ok(into_bump_slice(terms))
}

/// Adds a part.
pub fn add<T: Drop>(parts: &mut Vec<T, &Bump>, part: T) -> Result<(), Memory>
    ensures { OnOk result (parts.new.items ≡ parts.old.items ++ part ∷ []) }
{
    parts.push(part)?;
    Ok(())
}

/// Adds parts behind those that are there.
pub fn append<'a, T: Copy>(
    parts: &mut Vec<T, &'a Bump>,
    more: Vec<T, &'a Bump>,
) -> Result<(), Memory>
    ensures { OnOk result (parts.new.items ≡ parts.old.items ++ more.entry.items) }
{
    if parts.is_empty() {
        *parts = more;
    } else {
        parts.extend_from_slice(&more)?;
    }
    Ok(())
}
