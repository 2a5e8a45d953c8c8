ghost use Rattle.std.specs.Prelude.{◌≡◌, ◌<◌, ◌≤◌, ◌++◌, length, map, IfOk, OnOk};
ghost use Rattle.kp_tree_grammar.specs.Trees.{given_items, given_objects};
ghost use Rattle.kp_tree_parts.specs.Lexemes.{from};
ghost use Rattle.kp_tree_arena.specs.Nodes.{item_view, problem_view, typed_view};
ghost use Rattle.kp_tree_parts.specs.Readers.{Gives};
ghost use Rattle.kp_tree_files.specs.Parts.{seen_after, given_view, goal_after, goal_view};
ghost use Rattle.kp_tree_sections.specs.Givens.{GivesGivens, given_inside_at, given_at, givens_at, problem_inside_at, problem_at};

use bumpalo::Bump;
use kp_base::Memory;
use kp_tree_arena::ProblemNode;
use kp_tree_files::{Once, ProblemPart, Stated, as_problem, has_stood, keep_given, note};
use kp_tree_grammar::Symbol;
use kp_tree_parts::{
    Class, Halt, Lead, Role, Tokens, close, cond, follow, is_left, items, open, peek,
    skip_keywords, skip_name, title, typed,
};
use std::alloc::Global;

// What stands between the brackets of a section, where some have stood.
#[tactic(auto, unfolding(crate::specs::Givens::given_inside_at, kp_tree_cursor::specs::Readers::name_at, kp_tree_cursor::specs::Readers::keywords_at, kp_tree_parts::specs::Readers::typed_at, kp_tree_parts::specs::Readers::items_at, kp_tree_parts::specs::Readers::cond_at))]
fn given_inside<'a>(
    bump: &'a Bump,
    tokens: &Tokens<'_, 'a>,
    at: usize,
    levels: u32,
    seen: &[Symbol],
) -> Result<(ProblemPart<'a>, usize), Halt>
    ensures reads { Gives tokens.now (λ g. (seen_after g seen.now, given_view g)) result (given_inside_at seen.now levels (from tokens.now at)) }
    ensures onward { IfOk result (λ x. (at < x.1) × (x.1 ≤ length tokens.now)) }
{
    let Some(first) = peek(tokens, at) else {
        return Err(Halt::Syntax(at));
    };
    match first.symbol {
        Symbol::OfDomain => {
            if has_stood(seen, Once::OfDomain) {
                return Err(Halt::Syntax(at));
            }
            let at = skip_name(tokens, at + 1)?;
            Ok((ProblemPart::OfDomain, at))
        }
        Symbol::Requirements => {
            let at = skip_keywords(tokens, at + 1)?;
            Ok((ProblemPart::Requirements, at))
        }
        Symbol::Objects => {
            let (objects, at) = typed(bump, tokens, at + 1, levels, Class::Name)?;
            Ok((ProblemPart::Objects(objects), at))
        }
        Symbol::Init => {
            if has_stood(seen, Once::Init) {
                return Err(Halt::Syntax(at));
            }
            let (init, at) = items(bump, tokens, at + 1, levels)?;
            Ok((ProblemPart::Init(init), at))
        }
        Symbol::Goal => {
            if has_stood(seen, Once::Goal) {
                return Err(Halt::Syntax(at));
            }
            let (goal, at) = cond(bump, tokens, at + 1, levels, Role::Goal)?;
            Ok((ProblemPart::Goal(goal), at))
        }
        Symbol::Metric | Symbol::Constraints | Symbol::Length => Err(Halt::Unsupported(at)),
        _ => Err(Halt::Syntax(at)),
    }
}

// A section, where some have stood.
#[tactic(auto, unfolding(crate::specs::Givens::given_at, crate::specs::Givens::given_inside_at))]
fn given<'a>(
    bump: &'a Bump,
    tokens: &Tokens<'_, 'a>,
    at: usize,
    levels: u32,
    seen: &[Symbol],
) -> Result<(ProblemPart<'a>, usize), Halt>
    ensures reads { Gives tokens.now (λ g. (seen_after g seen.now, given_view g)) result (given_at seen.now levels (from tokens.now at)) }
    ensures onward { IfOk result (λ x. (at < x.1) × (x.1 ≤ length tokens.now)) }
{
    let (at, levels) = open(tokens, at, levels)?;
    let (part, at) = given_inside(bump, tokens, at, levels, seen)?;
    let at = close(tokens, at)?;
    Ok((part, at))
}

// Notes that a section has stood, and adds what it states.
fn take_in<'a>(
    stated: &mut Stated<'a>,
    seen: &mut Vec<Symbol>,
    part: ProblemPart<'a>,
) -> Result<(), Memory>
    ensures noted { OnOk result (seen.new.items ≡ seen_after part.entry seen.old.items) }
    ensures objects { OnOk result (map typed_view stated.new.objects.items ≡ map typed_view stated.old.objects.items ++ given_objects (given_view part.entry)) }
    ensures init { OnOk result (map item_view stated.new.init.items ≡ map item_view stated.old.init.items ++ given_items (given_view part.entry)) }
    ensures goal { OnOk result (goal_view stated.new.goal ≡ goal_after (given_view part.entry) (goal_view stated.old.goal)) }
{
    note(seen, &part)?;
    keep_given(stated, part)
}

// Sections, as many as stand there, with exactly one goal.
fn givens<'a>(
    bump: &'a Bump,
    alloc: Global,
    tokens: &Tokens<'_, 'a>,
    start: usize,
    levels: u32,
) -> Result<(ProblemNode<'a>, usize), Halt>
    requires { start ≤ length tokens.now }
    ensures reads { GivesGivens tokens.now result (givens_at levels (from tokens.now start)) }
    ensures onward { IfOk result (λ x. (start ≤ x.1) × (x.1 ≤ length tokens.now)) }
{
    let mut stated = Stated {
        objects: Vec::new(bump),
        init: Vec::new(bump),
        goal: None,
    };
    let mut seen = Vec::new(alloc);
    let mut at = start;
    'more: while is_left(tokens, at) {
        let before = seen.as_slice();
        let (part, after) = given(bump, tokens, at, levels, before)?;
        take_in(&mut stated, &mut seen, part)?;
        at = after;
    }
    let all = seen.as_slice();
    if has_stood(all, Once::Goal) {
        Ok((as_problem(stated), at))
    } else {
        Err(Halt::Syntax(at))
    }
}

// define ( problem Name ) and the sections
#[tactic(auto, unfolding(crate::specs::Givens::problem_inside_at, kp_tree_parts::specs::Readers::title_at, crate::specs::Givens::givens_at))]
fn problem_inside<'a>(
    bump: &'a Bump,
    alloc: Global,
    tokens: &Tokens<'_, 'a>,
    at: usize,
    levels: u32,
) -> Result<(ProblemNode<'a>, usize), Halt>
    ensures reads { Gives tokens.now problem_view result (problem_inside_at levels (from tokens.now at)) }
    ensures onward { IfOk result (λ x. (at < x.1) × (x.1 ≤ length tokens.now)) }
{
    let at = follow(tokens, at, Lead::Define)?;
    let at = title(tokens, at, levels, Lead::Problem)?;
    let (problem, at) = givens(bump, alloc, tokens, at, levels)?;
    Ok((problem, at))
}

/// A problem, and the place behind it.
#[tactic(auto, unfolding(crate::specs::Givens::problem_at, crate::specs::Givens::problem_inside_at))]
pub fn problem<'a>(
    bump: &'a Bump,
    alloc: Global,
    tokens: &Tokens<'_, 'a>,
    at: usize,
    levels: u32,
) -> Result<(ProblemNode<'a>, usize), Halt>
    ensures reads { Gives tokens.now problem_view result (problem_at levels (from tokens.now at)) }
    ensures onward { IfOk result (λ x. (at < x.1) × (x.1 ≤ length tokens.now)) }
{
    let (at, levels) = open(tokens, at, levels)?;
    let (problem, at) = problem_inside(bump, alloc, tokens, at, levels)?;
    let at = close(tokens, at)?;
    Ok((problem, at))
}
