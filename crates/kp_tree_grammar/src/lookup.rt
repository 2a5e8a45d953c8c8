ghost use Rattle.std.specs.Prelude.{◌≡◌, if◌then◌else◌};
ghost use Rattle.std.specs.Str.{bytes_eq};
ghost use Rattle.kp_tree_grammar.specs.Symbols.{symbol_of, look_up, known_words, keywords, refused_keywords};
ghost use Rattle.kp_tree_grammar.specs.declared.symbol.Symbol.TheVariants as symbols;

use crate::symbol::Symbol;
use kp_lex::TokenKind;

// The symbol of a text that is the word, and the other one of any other text.
fn known(text: &[u8], word: &str, symbol: Symbol, other: Symbol) -> Symbol
    ensures { result ≡ (if bytes_eq text.now word.now then symbol else other) }
{
    if text.len() == word.len() && text == word.as_bytes() {
        symbol
    } else {
        other
    }
}

// The symbol of a name.
fn name_symbol(text: &[u8]) -> Symbol
    ensures { result ≡ look_up known_words symbols.Name text.now }
{
    let symbol = Symbol::Name;
    let symbol = known(text, "merge", Symbol::Merge, symbol);
    let symbol = known(text, "either", Symbol::Either, symbol);
    let symbol = known(text, "problem", Symbol::Problem, symbol);
    let symbol = known(text, "domain", Symbol::Domain, symbol);
    let symbol = known(text, "define", Symbol::Define, symbol);
    let symbol = known(text, "scale-down", Symbol::ScaleDown, symbol);
    let symbol = known(text, "scale-up", Symbol::ScaleUp, symbol);
    let symbol = known(text, "assign", Symbol::Assign, symbol);
    let symbol = known(text, "decrease", Symbol::Decrease, symbol);
    let symbol = known(text, "increase", Symbol::Increase, symbol);
    let symbol = known(text, "probabilistic", Symbol::Probabilistic, symbol);
    let symbol = known(text, "preference", Symbol::Preference, symbol);
    let symbol = known(text, "unknown", Symbol::Unknown, symbol);
    let symbol = known(text, "oneof", Symbol::OneOf, symbol);
    let symbol = known(text, "when", Symbol::When, symbol);
    let symbol = known(text, "forall", Symbol::Forall, symbol);
    let symbol = known(text, "exists", Symbol::Exists, symbol);
    let symbol = known(text, "imply", Symbol::Imply, symbol);
    let symbol = known(text, "not", Symbol::Not, symbol);
    let symbol = known(text, "or", Symbol::Or, symbol);
    known(text, "and", Symbol::And, symbol)
}

// The symbol of a keyword that is known and not supported.
fn refused_symbol(text: &[u8]) -> Symbol
    ensures { result ≡ look_up refused_keywords symbols.Keyword text.now }
{
    let symbol = Symbol::Keyword;
    let symbol = known(text, ":length", Symbol::Length, symbol);
    let symbol = known(text, ":metric", Symbol::Metric, symbol);
    let symbol = known(text, ":vars", Symbol::Vars, symbol);
    let symbol = known(text, ":observe", Symbol::Observe, symbol);
    let symbol = known(text, ":event", Symbol::Event, symbol);
    let symbol = known(text, ":process", Symbol::Process, symbol);
    let symbol = known(text, ":constraints", Symbol::Constraints, symbol);
    let symbol = known(text, ":durative-action", Symbol::DurativeAction, symbol);
    let symbol = known(text, ":axiom", Symbol::Axiom, symbol);
    let symbol = known(text, ":derived", Symbol::Derived, symbol);
    known(text, ":functions", Symbol::Functions, symbol)
}

// The symbol of a keyword.
fn keyword_symbol(text: &[u8]) -> Symbol
    ensures { result ≡ look_up keywords (look_up refused_keywords symbols.Keyword text.now) text.now }
{
    let symbol = refused_symbol(text);
    let symbol = known(text, ":goal", Symbol::Goal, symbol);
    let symbol = known(text, ":init", Symbol::Init, symbol);
    let symbol = known(text, ":objects", Symbol::Objects, symbol);
    let symbol = known(text, ":domain", Symbol::OfDomain, symbol);
    let symbol = known(text, ":effect", Symbol::Effect, symbol);
    let symbol = known(text, ":precondition", Symbol::Precondition, symbol);
    let symbol = known(text, ":parameters", Symbol::Parameters, symbol);
    let symbol = known(text, ":action", Symbol::Action, symbol);
    let symbol = known(text, ":predicates", Symbol::Predicates, symbol);
    let symbol = known(text, ":constants", Symbol::Constants, symbol);
    let symbol = known(text, ":types", Symbol::Types, symbol);
    known(text, ":requirements", Symbol::Requirements, symbol)
}

/// What a token of this kind with this folded text is.
#[tactic(auto, unfolding(crate::specs::Symbols::symbol_of))]
pub fn symbol_of(kind: TokenKind, text: &[u8]) -> Symbol
    ensures { result ≡ symbol_of kind text.now }
{
    match kind {
        TokenKind::Left => Symbol::Left,
        TokenKind::Right => Symbol::Right,
        TokenKind::Dash => Symbol::Dash,
        TokenKind::Equal => Symbol::Equal,
        TokenKind::Variable => Symbol::Variable,
        TokenKind::Name => name_symbol(text),
        TokenKind::Keyword => keyword_symbol(text),
    }
}
