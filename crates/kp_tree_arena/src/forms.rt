ghost use Rattle.std.specs.Prelude.{◌≡◌, map, IfOk};
ghost use Rattle.kp_tree_grammar.specs.View as owned;
ghost use Rattle.kp_tree_grammar.specs.Trees.{Eff, Item};
ghost use Rattle.kp_tree_arena.specs.Nodes.{word_view, typed_view, atom_view, lit_view, cond_view, eff_view, item_view};

use crate::node::{AtomNode, CondNode, EffNode, ItemNode, LitNode, TypedNode, WordNode};
use crate::words::{copy_atom, copy_lits, copy_term, copy_typeds, copy_word};
use kp_base::{Memory, Row};
use kp_tree_grammar::{CondTree, EffTree, ItemTree};
use std::alloc::Global;

/// An equal condition.
#[cycle(conds)]
pub fn copy_cond(alloc: Global, node: &CondNode) -> Result<CondTree, Memory>
    ensures { IfOk result (λ c. owned.cond_view c ≡ cond_view node.now) }
{
    match node {
        CondNode::All(parts) => Ok(CondTree::All(copy_conds(alloc, parts)?)),
        CondNode::Atom(positive, atom) => Ok(CondTree::Atom(*positive, copy_atom(alloc, atom)?)),
        CondNode::Same(positive, left, right) => {
            let left = copy_term(alloc, left)?;
            let right = copy_term(alloc, right)?;
            Ok(CondTree::Same(*positive, left, right))
        }
    }
}

// Equal conditions.
#[cycle(conds)]
fn copy_conds(alloc: Global, nodes: &[CondNode]) -> Result<Row<CondTree>, Memory>
    ensures { IfOk result (λ cs. map owned.cond_view cs ≡ map cond_view nodes.now) }
{
    let mut copies = Vec::with_capacity(alloc, nodes.len())?;
    'copies: for node in nodes {
        copies.push(copy_cond(alloc, node)?)?;
    }
    Ok(Row::from_vec(copies))
}

// A copy of a condition over an effect.
fn copy_when(alloc: Global, condition: &CondNode, body: EffTree) -> Result<EffTree, Memory>
    ensures { IfOk result (λ e. owned.eff_view e ≡ Eff.when (cond_view condition.now) (owned.eff_view body)) }
{
    let body = Box::new(alloc, body)?;
    Ok(EffTree::When(copy_cond(alloc, condition)?, body))
}

// Copies of variables over an effect.
fn copy_each(alloc: Global, variables: &[TypedNode], body: EffTree) -> Result<EffTree, Memory>
    ensures { IfOk result (λ e. owned.eff_view e ≡ Eff.each (map typed_view variables.now) (owned.eff_view body)) }
{
    let body = Box::new(alloc, body)?;
    Ok(EffTree::Each(copy_typeds(alloc, variables)?, body))
}

/// An equal effect.
#[cycle(effs)]
pub fn copy_eff(alloc: Global, node: &EffNode) -> Result<EffTree, Memory>
    ensures { IfOk result (λ e. owned.eff_view e ≡ eff_view node.now) }
{
    match node {
        EffNode::All(parts) => Ok(EffTree::All(copy_effs(alloc, parts)?)),
        EffNode::When(condition, body) => {
            let body = copy_eff(alloc, body)?;
            copy_when(alloc, condition, body)
        }
        EffNode::Each(variables, body) => {
            let body = copy_eff(alloc, body)?;
            copy_each(alloc, variables, body)
        }
        EffNode::Atom(positive, atom) => Ok(EffTree::Atom(*positive, copy_atom(alloc, atom)?)),
    }
}

// Equal effects.
#[cycle(effs)]
fn copy_effs(alloc: Global, nodes: &[EffNode]) -> Result<Row<EffTree>, Memory>
    ensures { IfOk result (λ es. map owned.eff_view es ≡ map eff_view nodes.now) }
{
    let mut copies = Vec::with_capacity(alloc, nodes.len())?;
    'copies: for node in nodes {
        copies.push(copy_eff(alloc, node)?)?;
    }
    Ok(Row::from_vec(copies))
}

// A copy of `oneof` with its literals.
fn copy_one_of(alloc: Global, word: &WordNode, literals: &[LitNode]) -> Result<ItemTree, Memory>
    ensures { IfOk result (λ i. owned.item_view i ≡ Item.one_of (word_view word.now) (map lit_view literals.now)) }
{
    let word = copy_word(alloc, word)?;
    Ok(ItemTree::OneOf(word, copy_lits(alloc, literals)?))
}

// A copy of `or` with its literals.
fn copy_any_of(alloc: Global, word: &WordNode, literals: &[LitNode]) -> Result<ItemTree, Memory>
    ensures { IfOk result (λ i. owned.item_view i ≡ Item.any_of (word_view word.now) (map lit_view literals.now)) }
{
    let word = copy_word(alloc, word)?;
    Ok(ItemTree::AnyOf(word, copy_lits(alloc, literals)?))
}

// A copy of `unknown` with its fact.
fn copy_unknown(alloc: Global, word: &WordNode, atom: &AtomNode) -> Result<ItemTree, Memory>
    ensures { IfOk result (λ i. owned.item_view i ≡ Item.unknown (word_view word.now) (atom_view atom.now)) }
{
    let word = copy_word(alloc, word)?;
    Ok(ItemTree::Unknown(word, copy_atom(alloc, atom)?))
}

/// An equal item of `:init`.
#[cycle(items)]
pub fn copy_item(alloc: Global, node: &ItemNode) -> Result<ItemTree, Memory>
    ensures { IfOk result (λ i. owned.item_view i ≡ item_view node.now) }
{
    match node {
        ItemNode::All(parts) => Ok(ItemTree::All(copy_items(alloc, parts)?)),
        ItemNode::Lit(positive, atom) => Ok(ItemTree::Lit(*positive, copy_atom(alloc, atom)?)),
        ItemNode::OneOf(word, literals) => copy_one_of(alloc, word, literals),
        ItemNode::AnyOf(word, literals) => copy_any_of(alloc, word, literals),
        ItemNode::Unknown(word, atom) => copy_unknown(alloc, word, atom),
    }
}

/// Equal items.
#[cycle(items)]
pub fn copy_items(alloc: Global, nodes: &[ItemNode]) -> Result<Row<ItemTree>, Memory>
    ensures { IfOk result (λ is. map owned.item_view is ≡ map item_view nodes.now) }
{
    let mut copies = Vec::with_capacity(alloc, nodes.len())?;
    'copies: for node in nodes {
        copies.push(copy_item(alloc, node)?)?;
    }
    Ok(Row::from_vec(copies))
}
