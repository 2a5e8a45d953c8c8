ghost use Rattle.std.specs.Prelude.{◌<◌, ◌≤◌, ◌+◌, length, IfOk, IfErr};
ghost use Rattle.kp_tree_grammar.specs.Grammar.{fact};
ghost use Rattle.kp_tags_files.specs.Parts.{FactStands, FactStops, IsAtom, IsNumberOf, ReadsAt, HaltsAt, numbers_of};

use kp_base::{AtomId, Memory};
use kp_plans::{NameTable, name_of};
use kp_tree_cursor::{Class, Halt, Tokens, begins, close, is_left, run};
use std::alloc::Global;

// The words of an atom that stands at a place, and the place behind it.
fn words_at<'t, 'a>(tokens: &Tokens<'t, 'a>, at: usize) -> Result<(Tokens<'t, 'a>, usize), Halt>
    ensures found { IfOk result (λ x. FactStands tokens.now at x.0 x.1) }
    ensures stopped { IfErr result (λ e. FactStops tokens.now at e) }
    ensures onward { IfOk result (λ x. (0 < length x.0) × (at + 1 < x.1) × (x.1 ≤ length tokens.now)) }
{
    if !is_left(tokens, at) {
        return Err(Halt::Syntax(at));
    }
    if !begins(tokens, at + 1, Class::Head) {
        return Err(Halt::Syntax(at + 1));
    }
    let words = run(tokens, at + 1, Class::Name);
    let behind = close(tokens, at + 1 + words.len())?;
    Ok((words, behind))
}

// The number of the ground atom with these words, if there is one.
fn number_of(alloc: Global, table: &NameTable, words: &Tokens) -> Result<Option<u32>, Memory>
    requires { 0 < length words.now }
    ensures { IfOk result (λ number. IsNumberOf (numbers_of table.now) words.now number) }
{
    let name = name_of(alloc, words)?;
    let number = table.find(alloc, &name)?;
    Ok(number)
}

/// The ground atom that stands at a place, and the place behind it. An atom that is none is refused at its head.
pub fn atom_at(
    alloc: Global,
    table: &NameTable,
    tokens: &Tokens,
    at: usize,
) -> Result<(AtomId, usize), Halt>
    ensures found { IfOk result (λ x. ReadsAt fact (IsAtom (numbers_of table.now)) tokens.now at x.0 x.1) }
    ensures stopped { IfErr result (λ e. HaltsAt (numbers_of table.now) fact tokens.now at e) }
    ensures onward { IfOk result (λ x. (at + 1 < x.1) × (x.1 ≤ length tokens.now)) }
{
    let (words, behind) = words_at(tokens, at)?;
    match number_of(alloc, table, &words)? {
        Some(number) => Ok((AtomId(number), behind)),
        None => Err(Halt::Syntax(at + 1)),
    }
}
