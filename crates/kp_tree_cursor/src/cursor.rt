ghost use Rattle.std.specs.Prelude.{◌≡◌, ◌<◌, ◌≤◌, ◌+◌, ◌⊎◌, suc, false, Ok, length, IfOk, IfErr};
ghost use Rattle.std.specs.Bool.{OnTrue};
ghost use Rattle.kp_tree_grammar.specs.Forms.{hits};
ghost use Rattle.kp_tree_grammar.specs.Symbols.{first_is, is_left, is_right};
ghost use Rattle.kp_tree_cursor.specs.Lexemes.{from};
ghost use Rattle.kp_tree_cursor.specs.Readers.{Passes, Closed, Opened, Led, class_test, lead_test, name_at};

use crate::halt::Halt;
use crate::tokens::{Tokens, is_kind, peek};
use kp_lex::TokenKind;
use kp_tree_grammar::Symbol;

/// What a token may be.
#[derive(Clone, Copy, Debug, PartialEq, Eq)]
pub enum Class {
    /// Any name.
    Name,
    /// A name that may be the head of an atom.
    Head,
    /// A variable.
    Variable,
    /// A name or a variable.
    Term,
    /// Any keyword.
    Keyword,
}

/// A word that must come first in its brackets.
#[derive(Clone, Copy, Debug, PartialEq, Eq)]
pub enum Lead {
    /// `define`
    Define,
    /// `domain`
    Domain,
    /// `problem`
    Problem,
    /// `either`
    Either,
    /// `merge`
    Merge,
    /// `=`
    Equal,
}

// Whether the symbol is that of a name that may be a head.
fn is_head(symbol: Symbol) -> bool
    ensures { result ≡ class_test Class.Head symbol }
{
    matches!(
        symbol,
        Symbol::Define
            | Symbol::Domain
            | Symbol::Problem
            | Symbol::Either
            | Symbol::Merge
            | Symbol::Name
    )
}

// Whether the symbol is that of a name.
fn is_name(symbol: Symbol) -> bool
    ensures { result ≡ class_test Class.Name symbol }
{
    is_head(symbol)
        || matches!(
            symbol,
            Symbol::And
                | Symbol::Or
                | Symbol::Not
                | Symbol::Imply
                | Symbol::Exists
                | Symbol::Forall
                | Symbol::When
                | Symbol::OneOf
                | Symbol::Unknown
                | Symbol::Preference
                | Symbol::Probabilistic
                | Symbol::Increase
                | Symbol::Decrease
                | Symbol::Assign
                | Symbol::ScaleUp
                | Symbol::ScaleDown
        )
}

// Whether the symbol is that of a keyword: no name, no variable and no sign.
fn is_keyword(symbol: Symbol) -> bool
    ensures { result ≡ class_test Class.Keyword symbol }
{
    !is_name(symbol)
        && !matches!(
            symbol,
            Symbol::Left | Symbol::Right | Symbol::Dash | Symbol::Equal | Symbol::Variable
        )
}

/// Whether the symbol is that of a token of the class.
#[tactic(auto, using(crate::proofs::Several::never_bracket))]
pub fn has(class: Class, symbol: Symbol) -> bool
    ensures test { result ≡ class_test class symbol }
    ensures hit { result ≡ hits (class_test class) symbol }
{
    match class {
        Class::Name => is_name(symbol),
        Class::Head => is_head(symbol),
        Class::Variable => matches!(symbol, Symbol::Variable),
        Class::Term => matches!(symbol, Symbol::Variable) || is_name(symbol),
        Class::Keyword => is_keyword(symbol),
    }
}

/// Whether an opening bracket stands at a place.
pub fn is_left(tokens: &Tokens, at: usize) -> bool
    ensures test { result ≡ first_is is_left (from tokens.now at) }
    ensures within { OnTrue result (at < length tokens.now) }
    ensures opens { OnTrue result (Opened (from tokens.now at) (from tokens.now (at + 1))) }
    ensures few { length tokens.now < 9223372036854775808 }
{
    is_kind(tokens, at, TokenKind::Left)
}

/// The place behind an opening bracket, and the levels that are left in it.
pub fn open(tokens: &Tokens, at: usize, levels: u32) -> Result<(usize, u32), Halt>
    ensures found { IfOk result (λ x. Opened (from tokens.now at) (from tokens.now x.0)) }
    ensures stopped { IfErr result (λ e. (e ≡ Halt.Syntax at) × ((levels ≡ 0) ⊎ (first_is is_left (from tokens.now at) ≡ false))) }
    ensures onward { IfOk result (λ x. (x.0 ≡ at + 1) × (x.0 ≤ length tokens.now)) }
    ensures deeper { IfOk result (λ x. levels ≡ suc x.1) }
{
    if levels == 0 || !is_left(tokens, at) {
        Err(Halt::Syntax(at))
    } else {
        Ok((at + 1, levels - 1))
    }
}

/// The place behind a closing bracket.
pub fn close(tokens: &Tokens, at: usize) -> Result<usize, Halt>
    ensures found { IfOk result (λ n. Closed (from tokens.now at) (from tokens.now n)) }
    ensures stopped { IfErr result (λ e. (e ≡ Halt.Syntax at) × (first_is is_right (from tokens.now at) ≡ false)) }
    ensures onward { IfOk result (λ n. (at < n) × (n ≤ length tokens.now)) }
{
    if is_kind(tokens, at, TokenKind::Right) {
        Ok(at + 1)
    } else {
        Err(Halt::Syntax(at))
    }
}

// Whether a name that may be the head of an atom stands at a place.
fn begins_head(tokens: &Tokens, at: usize) -> bool
    ensures test { result ≡ first_is (class_test Class.Head) (from tokens.now at) }
    ensures within { OnTrue result (at < length tokens.now) }
    ensures few { length tokens.now < 9223372036854775808 }
{
    match peek(tokens, at) {
        Some(first) => is_head(first.symbol),
        None => false,
    }
}

// Whether a name or a variable stands at a place.
fn begins_term(tokens: &Tokens, at: usize) -> bool
    ensures test { result ≡ first_is (class_test Class.Term) (from tokens.now at) }
    ensures within { OnTrue result (at < length tokens.now) }
    ensures few { length tokens.now < 9223372036854775808 }
{
    is_kind(tokens, at, TokenKind::Variable) || is_kind(tokens, at, TokenKind::Name)
}

/// Whether a token of the class stands at a place.
pub fn begins(tokens: &Tokens, at: usize, class: Class) -> bool
    ensures test { result ≡ first_is (class_test class) (from tokens.now at) }
    ensures within { OnTrue result (at < length tokens.now) }
    ensures few { length tokens.now < 9223372036854775808 }
{
    match class {
        Class::Name => is_kind(tokens, at, TokenKind::Name),
        Class::Head => begins_head(tokens, at),
        Class::Variable => is_kind(tokens, at, TokenKind::Variable),
        Class::Term => begins_term(tokens, at),
        Class::Keyword => is_kind(tokens, at, TokenKind::Keyword),
    }
}

/// The place behind a name.
#[tactic(auto, unfolding(crate::specs::Readers::name_at))]
pub fn skip_name(tokens: &Tokens, at: usize) -> Result<usize, Halt>
    ensures reads { Passes tokens.now result (name_at (from tokens.now at)) }
    ensures onward { IfOk result (λ n. (at < n) × (n ≤ length tokens.now)) }
{
    if is_kind(tokens, at, TokenKind::Name) {
        Ok(at + 1)
    } else {
        Err(Halt::Syntax(at))
    }
}

// Whether the symbol is the word.
fn leads(lead: Lead, symbol: Symbol) -> bool
    ensures { result ≡ hits (lead_test lead) symbol }
{
    match lead {
        Lead::Define => matches!(symbol, Symbol::Define),
        Lead::Domain => matches!(symbol, Symbol::Domain),
        Lead::Problem => matches!(symbol, Symbol::Problem),
        Lead::Either => matches!(symbol, Symbol::Either),
        Lead::Merge => matches!(symbol, Symbol::Merge),
        Lead::Equal => matches!(symbol, Symbol::Equal),
    }
}

/// The place behind a word that must come first.
pub fn follow(tokens: &Tokens, at: usize, lead: Lead) -> Result<usize, Halt>
    ensures found { IfOk result (λ n. Led lead (from tokens.now at) (from tokens.now n)) }
    ensures stopped { IfErr result (λ e. (e ≡ Halt.Syntax at) × (first_is (hits (lead_test lead)) (from tokens.now at) ≡ false)) }
    ensures onward { IfOk result (λ n. (at < n) × (n ≤ length tokens.now)) }
{
    match peek(tokens, at) {
        Some(first) if leads(lead, first.symbol) => Ok(at + 1),
        _ => Err(Halt::Syntax(at)),
    }
}
