ghost use Rattle.std.specs.Prelude.{◌≡◌, map, IfOk};
ghost use Rattle.kp_tree_grammar.specs.View as owned;
ghost use Rattle.kp_tree_arena.specs.Nodes.{word_view, typed_view, term_view, atom_view, lit_view};

use crate::node::{AtomNode, LitNode, TermNode, TypedNode, WordNode};
use kp_base::{Memory, Row, Text};
use kp_tree_grammar::{AtomTree, LitTree, TermTree, Typed, Word};
use std::alloc::Global;

/// An equal word.
pub fn copy_word(alloc: Global, node: &WordNode) -> Result<Word, Memory>
    ensures { IfOk result (λ w. w ≡ word_view node.now) }
{
    Ok(Word {
        text: Text::from_slice(alloc, node.text.as_bytes())?,
        byte: node.byte,
    })
}

// Equal words.
fn copy_words(alloc: Global, nodes: &[WordNode]) -> Result<Row<Word>, Memory>
    ensures { IfOk result (λ ws. ws ≡ map word_view nodes.now) }
{
    let mut copies = Vec::with_capacity(alloc, nodes.len())?;
    'copies: for node in nodes {
        copies.push(copy_word(alloc, node)?)?;
    }
    Ok(Row::from_vec(copies))
}

// An equal word with its types.
fn copy_typed(alloc: Global, node: &TypedNode) -> Result<Typed, Memory>
    ensures { IfOk result (λ t. owned.typed_view t ≡ typed_view node.now) }
{
    let word = copy_word(alloc, &node.word)?;
    let kinds = copy_words(alloc, node.kinds)?;
    Ok(Typed { word, kinds })
}

/// Equal words with their types.
pub fn copy_typeds(alloc: Global, nodes: &[TypedNode]) -> Result<Row<Typed>, Memory>
    ensures { IfOk result (λ ts. map owned.typed_view ts ≡ map typed_view nodes.now) }
{
    let mut copies = Vec::with_capacity(alloc, nodes.len())?;
    'copies: for node in nodes {
        copies.push(copy_typed(alloc, node)?)?;
    }
    Ok(Row::from_vec(copies))
}

/// An equal term.
pub fn copy_term(alloc: Global, node: &TermNode) -> Result<TermTree, Memory>
    ensures { IfOk result (λ t. owned.term_view t ≡ term_view node.now) }
{
    match node {
        TermNode::Name(word) => Ok(TermTree::Name(copy_word(alloc, word)?)),
        TermNode::Variable(word) => Ok(TermTree::Variable(copy_word(alloc, word)?)),
    }
}

// Equal terms.
fn copy_terms(alloc: Global, nodes: &[TermNode]) -> Result<Row<TermTree>, Memory>
    ensures { IfOk result (λ ts. map owned.term_view ts ≡ map term_view nodes.now) }
{
    let mut copies = Vec::with_capacity(alloc, nodes.len())?;
    'copies: for node in nodes {
        copies.push(copy_term(alloc, node)?)?;
    }
    Ok(Row::from_vec(copies))
}

/// An equal atom.
pub fn copy_atom(alloc: Global, node: &AtomNode) -> Result<AtomTree, Memory>
    ensures { IfOk result (λ a. owned.atom_view a ≡ atom_view node.now) }
{
    let head = copy_word(alloc, &node.head)?;
    let terms = copy_terms(alloc, node.terms)?;
    Ok(AtomTree { head, terms })
}

// An equal literal.
fn copy_lit(alloc: Global, node: &LitNode) -> Result<LitTree, Memory>
    ensures { IfOk result (λ l. owned.lit_view l ≡ lit_view node.now) }
{
    Ok(LitTree {
        positive: node.positive,
        atom: copy_atom(alloc, &node.atom)?,
    })
}

/// Equal literals.
pub fn copy_lits(alloc: Global, nodes: &[LitNode]) -> Result<Row<LitTree>, Memory>
    ensures { IfOk result (λ ls. map owned.lit_view ls ≡ map lit_view nodes.now) }
{
    let mut copies = Vec::with_capacity(alloc, nodes.len())?;
    'copies: for node in nodes {
        copies.push(copy_lit(alloc, node)?)?;
    }
    Ok(Row::from_vec(copies))
}
