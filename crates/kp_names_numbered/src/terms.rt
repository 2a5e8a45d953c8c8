ghost use Rattle.std.specs.Prelude.{◌≡◌, map, IfOk};
ghost use Rattle.kp_tree_grammar.specs.View.{term_view, domain_view, problem_view, cond_view as tree_view};
ghost use Rattle.kp_names_semantics.specs.Numbering.{numbered_term, numbered_cond};
ghost use Rattle.kp_names_numbered.specs.View.{cond_view};

use crate::lifted::Cond;
use kp_base::{Memory, Row};
use kp_names_declared::{Names, Scope};
use kp_names_semantics::Term;
use kp_tree_grammar::{CondTree, TermTree};
use std::alloc::Global;

/// A term under these variables.
pub fn term(names: &Names, scope: &Scope, tree: &TermTree) -> Term
    ensures { result ≡ numbered_term (domain_view names.now.domain) (problem_view names.now.problem) scope.now (term_view tree.now) }
{
    match tree {
        TermTree::Name(word) => Term::Object(names.object_number(&word.text)),
        TermTree::Variable(word) => Term::Param(scope.number(word.text.slice())),
    }
}

/// The terms of an atom.
pub fn terms(
    alloc: Global,
    names: &Names,
    scope: &Scope,
    trees: &[TermTree],
) -> Result<Row<Term>, Memory>
    ensures { IfOk result (λ row. row ≡ map (numbered_term (domain_view names.now.domain) (problem_view names.now.problem) scope.now) (map term_view trees.now)) }
{
    let mut row = Row::new(alloc);
    for tree in trees {
        row.push(term(names, scope, tree))?;
    }
    Ok(row)
}

/// A condition under these variables.
pub fn condition(
    alloc: Global,
    names: &Names,
    scope: &Scope,
    tree: &CondTree,
) -> Result<Cond, Memory>
    ensures { IfOk result (λ c. cond_view c ≡ numbered_cond (domain_view names.now.domain) (problem_view names.now.problem) scope.now (tree_view tree.now)) }
{
    match tree {
        CondTree::All(parts) => {
            let mut row = Row::new(alloc);
            for part in parts.slice() {
                row.push(condition(alloc, names, scope, part)?)?;
            }
            Ok(Cond::All(row))
        }
        CondTree::Atom(positive, atom) => Ok(Cond::Atom {
            positive: *positive,
            pred: names.predicate_number(&atom.head.text),
            terms: terms(alloc, names, scope, atom.terms.slice())?,
        }),
        CondTree::Same(positive, left, right) => Ok(Cond::Same {
            positive: *positive,
            left: term(names, scope, left),
            right: term(names, scope, right),
        }),
    }
}
