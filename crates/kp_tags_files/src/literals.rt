ghost use Rattle.std.specs.Prelude.{◌≡◌, ◌<◌, ◌≤◌, ◌+◌, false, length, IfOk, IfErr};
ghost use Rattle.std.specs.Bool.{OnTrue};
ghost use Rattle.kp_tree_grammar.specs.Symbols.{first_is, is_left as is_opening, is_not, is_right};
ghost use Rattle.kp_tree_grammar.specs.Forms.{many};
ghost use Rattle.kp_tree_grammar.specs.Grammar.{lit};
ghost use Rattle.kp_tree_cursor.specs.Lexemes.{from};
ghost use Rattle.kp_tree_cursor.specs.Readers.{Closed};
ghost use Rattle.kp_tags_files.specs.Grammar.{tag};
ghost use Rattle.kp_tags_files.specs.Numbers.{IsLit, IsTag};
ghost use Rattle.kp_tags_files.specs.Parts.{ReadsAt, HaltsAt, is_denied, numbers_of};

use crate::atoms::atom_at;
use kp_base::{Lit, LitSet};
use kp_plans::NameTable;
use kp_tree_cursor::{Halt, Tokens, close, is_left, peek};
use kp_tree_grammar::Symbol;
use std::alloc::Global;

// Whether the word `not` stands at a place.
fn is_not(tokens: &Tokens, at: usize) -> bool
    ensures test { result ≡ first_is is_not (from tokens.now at) }
    ensures within { OnTrue result (at < length tokens.now) }
{
    match peek(tokens, at) {
        Some(first) => matches!(first.symbol, Symbol::Not),
        None => false,
    }
}

// Whether a literal that stands at a place has a negation.
fn is_denied(tokens: &Tokens, at: usize) -> bool
    ensures test { result ≡ is_denied (from tokens.now at) }
    ensures within { OnTrue result (at + 2 ≤ length tokens.now) }
    ensures few { length tokens.now < 9223372036854775808 }
{
    is_left(tokens, at) && is_not(tokens, at + 1)
}

/// The literal that stands at a place, and the place behind it.
pub fn literal_at(
    alloc: Global,
    table: &NameTable,
    tokens: &Tokens,
    at: usize,
) -> Result<(Lit, usize), Halt>
    ensures found { IfOk result (λ x. ReadsAt lit (IsLit (numbers_of table.now)) tokens.now at x.0 x.1) }
    ensures stopped { IfErr result (λ e. HaltsAt (numbers_of table.now) lit tokens.now at e) }
    ensures onward { IfOk result (λ x. (at < x.1) × (x.1 ≤ length tokens.now)) }
{
    let positive = !is_denied(tokens, at);
    if positive {
        let (atom, behind) = atom_at(alloc, table, tokens, at)?;
        Ok((Lit { atom, positive }, behind))
    } else {
        let (atom, behind) = atom_at(alloc, table, tokens, at + 2)?;
        let behind = close(tokens, behind)?;
        Ok((Lit { atom, positive }, behind))
    }
}

// The literals that stand at a place, as a set, and the place behind them.
fn literals_at(
    alloc: Global,
    table: &NameTable,
    tokens: &Tokens,
    start: usize,
) -> Result<(LitSet, usize), Halt>
    requires { start ≤ length tokens.now }
    ensures found { IfOk result (λ x. ReadsAt (many is_opening lit) (IsTag (numbers_of table.now)) tokens.now start x.0 x.1) }
    ensures stopped { IfErr result (λ e. HaltsAt (numbers_of table.now) (many is_opening lit) tokens.now start e) }
    ensures onward { IfOk result (λ x. (start ≤ x.1) × (x.1 ≤ length tokens.now)) }
{
    let mut set = LitSet::new(alloc);
    let mut at = start;
    'literals: while is_left(tokens, at) {
        let (lit, behind) = literal_at(alloc, table, tokens, at)?;
        set.insert(lit)?;
        at = behind;
    }
    Ok((set, at))
}

/// What stands in front of a closing bracket, and the place behind the bracket.
pub fn closed<T: Drop>(tokens: &Tokens, inner: (T, usize)) -> Result<(T, usize), Halt>
    ensures found { IfOk result (λ x. (x.0 ≡ inner.0) × Closed (from tokens.now inner.1) (from tokens.now x.1)) }
    ensures stopped { IfErr result (λ e. (e ≡ Halt.Syntax inner.1) × (first_is is_right (from tokens.now inner.1) ≡ false)) }
    ensures onward { IfOk result (λ x. (inner.1 < x.1) × (x.1 ≤ length tokens.now)) }
{
    let behind = close(tokens, inner.1)?;
    Ok((inner.0, behind))
}

/// The tag that stands at a place, and the place behind it.
pub fn tag_at(
    alloc: Global,
    table: &NameTable,
    tokens: &Tokens,
    at: usize,
) -> Result<(LitSet, usize), Halt>
    ensures found { IfOk result (λ x. ReadsAt tag (IsTag (numbers_of table.now)) tokens.now at x.0 x.1) }
    ensures stopped { IfErr result (λ e. HaltsAt (numbers_of table.now) tag tokens.now at e) }
    ensures onward { IfOk result (λ x. (at < x.1) × (x.1 ≤ length tokens.now)) }
{
    if !is_left(tokens, at) {
        return Err(Halt::Syntax(at));
    }
    let literals = literals_at(alloc, table, tokens, at + 1)?;
    let (set, behind) = closed(tokens, literals)?;
    Ok((set, behind))
}
