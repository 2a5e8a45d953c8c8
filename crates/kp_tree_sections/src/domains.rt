ghost use Rattle.std.specs.Prelude.{◌<◌, ◌≤◌, length, IfOk};
ghost use Rattle.kp_tree_parts.specs.Lexemes.{from};
ghost use Rattle.kp_tree_arena.specs.Nodes.{domain_view};
ghost use Rattle.kp_tree_parts.specs.Readers.{Gives};
ghost use Rattle.kp_tree_files.specs.Parts.{section_view};
ghost use Rattle.kp_tree_sections.specs.Sections.{GivesSections, section_inside_at, section_at, sections_at, domain_inside_at, domain_at};

use crate::sections::{preds, schema};
use bumpalo::Bump;
use kp_tree_arena::DomainNode;
use kp_tree_files::{Declared, DomainPart, as_domain, keep_section};
use kp_tree_grammar::Symbol;
use kp_tree_parts::{
    Class, Halt, Lead, Tokens, begins, close, follow, is_left, open, peek, skip_keywords, title,
    typed,
};

// What stands between the brackets of a section.
#[tactic(auto, unfolding(crate::specs::Sections::section_inside_at, kp_tree_cursor::specs::Readers::keywords_at, kp_tree_parts::specs::Readers::typed_at, kp_tree_parts::specs::Readers::preds_at, kp_tree_parts::specs::Readers::schema_at))]
fn section_inside<'a>(
    bump: &'a Bump,
    tokens: &Tokens<'_, 'a>,
    at: usize,
    levels: u32,
) -> Result<(DomainPart<'a>, usize), Halt>
    ensures reads { Gives tokens.now section_view result (section_inside_at levels (from tokens.now at)) }
    ensures onward { IfOk result (λ x. (at < x.1) × (x.1 ≤ length tokens.now)) }
{
    let Some(first) = peek(tokens, at) else {
        return Err(Halt::Syntax(at));
    };
    match first.symbol {
        Symbol::Requirements => {
            let at = skip_keywords(tokens, at + 1)?;
            Ok((DomainPart::Requirements, at))
        }
        Symbol::Types => {
            let (kinds, at) = typed(bump, tokens, at + 1, levels, Class::Name)?;
            Ok((DomainPart::Types(kinds), at))
        }
        Symbol::Constants => {
            let (constants, at) = typed(bump, tokens, at + 1, levels, Class::Name)?;
            Ok((DomainPart::Constants(constants), at))
        }
        Symbol::Predicates => {
            let (predicates, at) = preds(bump, tokens, at + 1, levels)?;
            Ok((DomainPart::Predicates(predicates), at))
        }
        Symbol::Action => {
            let (schema, at) = schema(bump, tokens, at + 1, levels)?;
            Ok((DomainPart::Action(schema), at))
        }
        Symbol::Functions
        | Symbol::Derived
        | Symbol::Axiom
        | Symbol::DurativeAction
        | Symbol::Constraints
        | Symbol::Process
        | Symbol::Event => Err(Halt::Unsupported(at)),
        _ => Err(Halt::Syntax(at)),
    }
}

// A section.
#[tactic(auto, unfolding(crate::specs::Sections::section_at, crate::specs::Sections::section_inside_at))]
fn section<'a>(
    bump: &'a Bump,
    tokens: &Tokens<'_, 'a>,
    at: usize,
    levels: u32,
) -> Result<(DomainPart<'a>, usize), Halt>
    ensures reads { Gives tokens.now section_view result (section_at levels (from tokens.now at)) }
    ensures onward { IfOk result (λ x. (at < x.1) × (x.1 ≤ length tokens.now)) }
{
    let (at, levels) = open(tokens, at, levels)?;
    let (part, at) = section_inside(bump, tokens, at, levels)?;
    let at = close(tokens, at)?;
    Ok((part, at))
}

// Whether an action begins at a place.
fn is_action(tokens: &Tokens, at: usize) -> bool {
    begins(tokens, at, Class::Keyword)
        && peek(tokens, at).is_some_and(|first| matches!(first.symbol, Symbol::Action))
}

// How many actions begin: as many schemas there may be. It says how much room to make, and no clause speaks of it.
fn actions_ahead(tokens: &Tokens) -> usize {
    (0..tokens.len())
        .filter(|at| is_action(tokens, *at))
        .count()
}

// Sections, as many as stand there.
fn sections<'a>(
    bump: &'a Bump,
    tokens: &Tokens<'_, 'a>,
    start: usize,
    levels: u32,
) -> Result<(DomainNode<'a>, usize), Halt>
    requires { start ≤ length tokens.now }
    ensures reads { GivesSections tokens.now result (sections_at levels (from tokens.now start)) }
    ensures onward { IfOk result (λ x. (start ≤ x.1) × (x.1 ≤ length tokens.now)) }
{
    let schemas = Vec::with_capacity(bump, actions_ahead(tokens))?;
    let mut declared = Declared {
        kinds: Vec::new(bump),
        constants: Vec::new(bump),
        predicates: Vec::new(bump),
        schemas,
    };
    let mut at = start;
    'more: while is_left(tokens, at) {
        let (part, after) = section(bump, tokens, at, levels)?;
        keep_section(&mut declared, part)?;
        at = after;
    }
    Ok((as_domain(declared), at))
}

// define ( domain Name ) and the sections
#[tactic(auto, unfolding(crate::specs::Sections::domain_inside_at, kp_tree_parts::specs::Readers::title_at, crate::specs::Sections::sections_at))]
fn domain_inside<'a>(
    bump: &'a Bump,
    tokens: &Tokens<'_, 'a>,
    at: usize,
    levels: u32,
) -> Result<(DomainNode<'a>, usize), Halt>
    ensures reads { Gives tokens.now domain_view result (domain_inside_at levels (from tokens.now at)) }
    ensures onward { IfOk result (λ x. (at < x.1) × (x.1 ≤ length tokens.now)) }
{
    let at = follow(tokens, at, Lead::Define)?;
    let at = title(tokens, at, levels, Lead::Domain)?;
    let (domain, at) = sections(bump, tokens, at, levels)?;
    Ok((domain, at))
}

/// A domain, and the place behind it.
#[tactic(auto, unfolding(crate::specs::Sections::domain_at, crate::specs::Sections::domain_inside_at))]
pub fn domain<'a>(
    bump: &'a Bump,
    tokens: &Tokens<'_, 'a>,
    at: usize,
    levels: u32,
) -> Result<(DomainNode<'a>, usize), Halt>
    ensures reads { Gives tokens.now domain_view result (domain_at levels (from tokens.now at)) }
    ensures onward { IfOk result (λ x. (at < x.1) × (x.1 ≤ length tokens.now)) }
{
    let (at, levels) = open(tokens, at, levels)?;
    let (domain, at) = domain_inside(bump, tokens, at, levels)?;
    let at = close(tokens, at)?;
    Ok((domain, at))
}
