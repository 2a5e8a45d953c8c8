ghost use Rattle.std.specs.Prelude.{◌≡◌, ◌++◌, map, flat_map, IfOk, OnOk};
ghost use Rattle.kp_tree_grammar.specs.View.{term_view, atom_view, lit_view, item_view, cond_view, domain_view, problem_view};
ghost use Rattle.kp_names_semantics.specs.Numbering.{object_number, numbered_literal, numbered_lit, numbered_item, numbered_goal};

use crate::tables::Names;
use kp_base::{Memory, Row};
use kp_names_semantics::{GroundLit, Item};
use kp_tree_grammar::{AtomTree, CondTree, ItemTree, LitTree, TermTree};
use std::alloc::Global;

// The object that a term names. No variable stands in `:init` or the goal.
fn object(names: &Names, term: &TermTree) -> u32
    ensures { result ≡ object_number (domain_view names.now.domain) (problem_view names.now.problem) (term_view term.now) }
{
    match term {
        TermTree::Name(word) => names.object_number(&word.text),
        TermTree::Variable(_) => 0,
    }
}

fn objects(alloc: Global, names: &Names, terms: &[TermTree]) -> Result<Row<u32>, Memory>
    ensures { IfOk result (λ row. row ≡ map (object_number (domain_view names.now.domain) (problem_view names.now.problem)) (map term_view terms.now)) }
{
    let mut row = Row::new(alloc);
    for term in terms {
        row.push(object(names, term))?;
    }
    Ok(row)
}

// An atom, or its negation.
fn literal(
    alloc: Global,
    names: &Names,
    positive: bool,
    atom: &AtomTree,
) -> Result<GroundLit, Memory>
    ensures { IfOk result (λ l. l ≡ numbered_literal (domain_view names.now.domain) (problem_view names.now.problem) positive (atom_view atom.now)) }
{
    Ok(GroundLit {
        positive,
        pred: names.predicate_number(&atom.head.text),
        objects: objects(alloc, names, atom.terms.slice())?,
    })
}

fn literals(alloc: Global, names: &Names, trees: &[LitTree]) -> Result<Row<GroundLit>, Memory>
    ensures { IfOk result (λ row. row ≡ map (numbered_lit (domain_view names.now.domain) (problem_view names.now.problem)) (map lit_view trees.now)) }
{
    let mut row = Row::new(alloc);
    for tree in trees {
        row.push(literal(alloc, names, tree.positive, &tree.atom)?)?;
    }
    Ok(row)
}

// Adds what an item states.
fn add_item(
    alloc: Global,
    names: &Names,
    tree: &ItemTree,
    items: &mut Row<Item>,
) -> Result<(), Memory>
    ensures { OnOk result (items.new ≡ items.old ++ numbered_item (domain_view names.now.domain) (problem_view names.now.problem) (item_view tree.now)) }
{
    match tree {
        ItemTree::All(parts) => {
            for part in parts.slice() {
                add_item(alloc, names, part, items)?;
            }
            Ok(())
        }
        ItemTree::Lit(positive, atom) => {
            items.push(Item::One(literal(alloc, names, *positive, atom)?))
        }
        ItemTree::OneOf(_, trees) => {
            items.push(Item::OneOf(literals(alloc, names, trees.slice())?))
        }
        ItemTree::AnyOf(_, trees) => {
            items.push(Item::AnyOf(literals(alloc, names, trees.slice())?))
        }
        ItemTree::Unknown(_, atom) => {
            items.push(Item::Unknown(literal(alloc, names, true, atom)?))
        }
    }
}

/// What `:init` states.
pub fn initial_items(alloc: Global, names: &Names) -> Result<Row<Item>, Memory>
    ensures { IfOk result (λ row. row ≡ flat_map (numbered_item (domain_view names.now.domain) (problem_view names.now.problem)) (problem_view names.now.problem).init) }
{
    let mut items = Row::new(alloc);
    for tree in names.problem().init.slice() {
        add_item(alloc, names, tree, &mut items)?;
    }
    Ok(items)
}

// Adds the literals of a part of the goal.
fn add_goal(
    alloc: Global,
    names: &Names,
    tree: &CondTree,
    goal: &mut Row<GroundLit>,
) -> Result<(), Memory>
    ensures { OnOk result (goal.new ≡ goal.old ++ numbered_goal (domain_view names.now.domain) (problem_view names.now.problem) (cond_view tree.now)) }
{
    match tree {
        CondTree::All(parts) => {
            for part in parts.slice() {
                add_goal(alloc, names, part, goal)?;
            }
            Ok(())
        }
        CondTree::Atom(positive, atom) => goal.push(literal(alloc, names, *positive, atom)?),
        CondTree::Same(..) => Ok(()),
    }
}

/// The literals of the goal.
pub fn goal_literals(alloc: Global, names: &Names) -> Result<Row<GroundLit>, Memory>
    ensures { IfOk result (λ row. row ≡ numbered_goal (domain_view names.now.domain) (problem_view names.now.problem) (problem_view names.now.problem).goal) }
{
    let mut goal = Row::new(alloc);
    add_goal(alloc, names, &names.problem().goal, &mut goal)?;
    Ok(goal)
}
