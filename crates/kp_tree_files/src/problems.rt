ghost use Rattle.std.specs.Prelude.{◌≡◌, ◌++◌, map, OnOk};
ghost use Rattle.kp_tree_grammar.specs.Grammar.{has_stood};
ghost use Rattle.kp_tree_grammar.specs.Trees.{given_objects, given_items};
ghost use Rattle.kp_tree_arena.specs.Nodes.{typed_view, item_view, cond_view};
ghost use Rattle.kp_tree_files.specs.Parts.{once_test, seen_after, given_view, goal_view, goal_after, goal_or_true};

use bumpalo::Bump;
use bumpalo::collections::into_bump_slice;
use kp_base::Memory;
use kp_tree_arena::{CondNode, ItemNode, ProblemNode, TypedNode};
use kp_tree_grammar::Symbol;
use kp_tree_parts::{append, no_condition};

/// A section of a problem that stands at most once.
#[derive(Clone, Copy, Debug, PartialEq, Eq)]
pub enum Once {
    /// `:domain`
    OfDomain,
    /// `:init`
    Init,
    /// `:goal`
    Goal,
}

/// A section of a problem.
#[derive(Drop)]
pub enum ProblemPart<'a> {
    /// The domain's name, which isn't kept.
    OfDomain,
    /// Requirements, which aren't kept.
    Requirements,
    /// Objects with their types.
    Objects(Vec<TypedNode<'a>, &'a Bump>),
    /// What is stated of the initial state.
    Init(Vec<ItemNode<'a>, &'a Bump>),
    /// The goal.
    Goal(CondNode<'a>),
}

/// What the sections of a problem that stood so far state.
#[derive(Drop)]
pub struct Stated<'a> {
    /// The objects.
    pub objects: Vec<TypedNode<'a>, &'a Bump>,
    /// What is stated of the initial state.
    pub init: Vec<ItemNode<'a>, &'a Bump>,
    /// The goal, if it stood.
    pub goal: Option<CondNode<'a>>,
}

// Whether the symbol is the section's keyword.
fn is_once(symbol: Symbol, once: Once) -> bool
    ensures { result ≡ once_test once symbol }
{
    match once {
        Once::OfDomain => matches!(symbol, Symbol::OfDomain),
        Once::Init => matches!(symbol, Symbol::Init),
        Once::Goal => matches!(symbol, Symbol::Goal),
    }
}

/// Whether the section has stood.
pub fn has_stood(seen: &[Symbol], once: Once) -> bool
    ensures { result ≡ has_stood (once_test once) seen.now }
{
    seen.iter().any(|s| is_once(*s, once))
}

/// Notes that a section has stood, the latest first.
pub fn note(seen: &mut Vec<Symbol>, part: &ProblemPart) -> Result<(), Memory>
    ensures { OnOk result (seen.new.items ≡ seen_after part.now seen.old.items) }
{
    match part {
        ProblemPart::OfDomain => seen.insert(0, Symbol::OfDomain)?,
        ProblemPart::Init(_) => seen.insert(0, Symbol::Init)?,
        ProblemPart::Goal(_) => seen.insert(0, Symbol::Goal)?,
        ProblemPart::Requirements | ProblemPart::Objects(_) => {}
    }
    Ok(())
}

/// Adds what a section states. The first goal is the one.
pub fn keep_given<'a>(stated: &mut Stated<'a>, part: ProblemPart<'a>) -> Result<(), Memory>
    ensures objects { OnOk result (map typed_view stated.new.objects.items ≡ map typed_view stated.old.objects.items ++ given_objects (given_view part.entry)) }
    ensures init { OnOk result (map item_view stated.new.init.items ≡ map item_view stated.old.init.items ++ given_items (given_view part.entry)) }
    ensures goal { OnOk result (goal_view stated.new.goal ≡ goal_after (given_view part.entry) (goal_view stated.old.goal)) }
{
    match part {
        ProblemPart::OfDomain | ProblemPart::Requirements => Ok(()),
        ProblemPart::Objects(objects) => append(&mut stated.objects, objects),
        ProblemPart::Init(init) => append(&mut stated.init, init),
        ProblemPart::Goal(goal) => {
            stated.goal = stated.goal.or(Some(goal));
            Ok(())
        }
    }
}

/// The problem of all that is stated.
pub fn as_problem<'a>(stated: Stated<'a>) -> ProblemNode<'a>
    ensures objects { result.objects.now ≡ stated.entry.objects.items }
    ensures init { result.init.now ≡ stated.entry.init.items }
    ensures goal { cond_view result.goal ≡ goal_or_true (goal_view stated.entry.goal) }
{
    let goal = match stated.goal {
        Some(goal) => goal,
        None => no_condition(),
    };
    ProblemNode {
        objects: into_bump_slice(stated.objects),
        init: into_bump_slice(stated.init),
        goal,
    }
}
