ghost use Rattle.std.specs.Prelude.{◌≡◌, [], ◌==◌, map};
ghost use Rattle.std.specs.List.{flat_map};
ghost use Rattle.kp_tree_grammar.specs.View.{term_view, atom_view, cond_view, lit_view, item_view};
ghost use Rattle.kp_names_semantics.specs.Faults.{predicate_of, term_faults, head_faults, atom_faults, cond_faults, lit_faults, item_faults};
ghost use Rattle.kp_names_declared.specs.Collected.{domain_of, problem_of};
ghost use Rattle.kp_names.specs.Noted.{noted};

use crate::declarations::note_unless;
use crate::first::{Fault, First};
use kp_names_declared::{NameSet, Names};
use kp_tree_grammar::{AtomTree, CondTree, ItemTree, LitTree, TermTree};

// Notes a term that names no object, or a variable that isn't one of the scope.
fn note_term(names: &Names, scope: &NameSet, term: &TermTree, first: &mut First)
    ensures { first.new ≡ noted first.old (term_faults (domain_of names.now) (problem_of names.now) scope.now (term_view term.now)) }
{
    match term {
        TermTree::Name(word) => note_unless(names.has_object(&word.text), word, first),
        TermTree::Variable(word) => note_unless(scope.has(word.text.slice()), word, first),
    }
}

fn note_terms(names: &Names, scope: &NameSet, terms: &[TermTree], first: &mut First)
    ensures { first.new ≡ noted first.old (flat_map (term_faults (domain_of names.now) (problem_of names.now) scope.now) (map term_view terms.now)) }
{
    for term in terms {
        note_term(names, scope, term, first);
    }
}

// Notes a head that is no predicate, or that takes another number of terms.
fn note_head(names: &Names, atom: &AtomTree, first: &mut First)
    ensures { first.new ≡ noted first.old (head_faults (predicate_of (domain_of names.now) (atom_view atom.now)) (atom_view atom.now)) }
{
    match names.predicate(&atom.head.text) {
        Some(declared) if declared.arity == atom.terms.len() => {}
        Some(_) => first.note(Fault::WrongUse(atom.head.byte)),
        None => first.note(Fault::UnknownName(atom.head.byte)),
    }
}

/// Notes the faults of an atom.
pub fn note_atom(names: &Names, scope: &NameSet, atom: &AtomTree, first: &mut First)
    ensures { first.new ≡ noted first.old (atom_faults (domain_of names.now) (problem_of names.now) scope.now (atom_view atom.now)) }
{
    note_head(names, atom, first);
    note_terms(names, scope, atom.terms.slice(), first);
}

/// Notes the faults of a condition.
pub fn note_cond(names: &Names, scope: &NameSet, cond: &CondTree, first: &mut First)
    ensures { first.new ≡ noted first.old (cond_faults (domain_of names.now) (problem_of names.now) scope.now (cond_view cond.now)) }
{
    match cond {
        CondTree::All(parts) => {
            for part in parts.slice() {
                note_cond(names, scope, part, first);
            }
        }
        CondTree::Atom(_, atom) => note_atom(names, scope, atom, first),
        CondTree::Same(_, left, right) => {
            note_term(names, scope, left, first);
            note_term(names, scope, right, first);
        }
    }
}

// Notes the faults of literals, in which no variable stands.
fn note_lits(names: &Names, none: &NameSet, lits: &[LitTree], first: &mut First)
    requires { none.now ≡ [] }
    ensures { first.new ≡ noted first.old (flat_map (lit_faults (domain_of names.now) (problem_of names.now)) (map lit_view lits.now)) }
{
    for lit in lits {
        note_atom(names, none, &lit.atom, first);
    }
}

/// Notes the faults of an item of `:init`, in which no variable stands.
pub fn note_item(names: &Names, none: &NameSet, item: &ItemTree, first: &mut First)
    requires { none.now ≡ [] }
    ensures { first.new ≡ noted first.old (item_faults (domain_of names.now) (problem_of names.now) (item_view item.now)) }
{
    match item {
        ItemTree::All(parts) => {
            for part in parts.slice() {
                note_item(names, none, part, first);
            }
        }
        ItemTree::Lit(_, atom) | ItemTree::Unknown(_, atom) => note_atom(names, none, atom, first),
        ItemTree::OneOf(_, lits) | ItemTree::AnyOf(_, lits) => {
            note_lits(names, none, lits.slice(), first);
        }
    }
}
