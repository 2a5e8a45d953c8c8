ghost use Rattle.std.specs.Prelude.{◌≡◌, ◌≢◌, ◌<◌, ◌≤◌, ◌+◌, ◌-◌, ◌==◌, ◌∷◌, [], length, map, drop, take, slice_range, IfSome, IfNone};
ghost use Rattle.std.specs.Bool.{OnTrue, OnFalse};
ghost use Rattle.kp_tree_grammar.specs.Symbols.{first_is, kind_test};
ghost use Rattle.kp_tree_cursor.specs.Lexemes.{tok, lexed, from, AreCutFrom};
ghost use Rattle.kp_tree_cursor.specs.Spans.{IsWordIn};
ghost use Rattle.kp_tree_cursor.specs.Readers.{Shown};

use crate::lexeme::Lexeme;
use kp_lex::{Token, TokenKind};
use kp_tree_grammar::symbol_of;
use std::marker::Model;
use std::str::from_utf8;

/// Tokens of a text, seen over its bytes in lower case. The word of a token is made when it is asked for.
#[derive(Drop)]
pub struct Tokens<'t, 'a> {
    lower: &'a [u8],
    spans: &'t [Token],
}

impl<'t, 'a> Model for Tokens<'t, 'a> {
    ghost use Rattle.std.specs.Prelude.{List, map};
    ghost use Rattle.std.specs.List.{All};
    ghost use Rattle.kp_tree_grammar.specs.declared.tree.Word.{Word};
    ghost use Rattle.kp_tree_grammar.specs.Symbols.{Tok};

    ghost Value = { List (Tok Word) };

    ghost use Rattle.kp_tree_cursor.specs.Lexemes.{lexed};
    ghost use Rattle.kp_tree_cursor.specs.Spans.{IsWordIn};

    ghost view = { λ s. map (lexed s.lower.now) s.spans.now };

    ghost invariant = { λ s. All (IsWordIn s.lower.now) s.spans.now };
}

// The text of a token, from all bytes in lower case.
fn word_text<'a>(lower: &'a [u8], token: &Token) -> &'a str
    requires { IsWordIn lower.now token.now }
    ensures { result.now ≡ slice_range lower.now token.now.from token.now.to }
{
    match from_utf8(&lower[token.from as usize..token.to as usize]) {
        Ok(text) => text,
        Err(_) => unreachable!(),
    }
}

// A token, from all bytes in lower case.
fn read_token<'a>(lower: &'a [u8], token: &Token) -> Lexeme<'a>
    requires { IsWordIn lower.now token.now }
    ensures { tok result ≡ lexed lower.now token.now }
{
    let text = word_text(lower, token);
    Lexeme {
        text,
        byte: token.from,
        symbol: symbol_of(token.kind, text.as_bytes()),
    }
}

impl<'t, 'a> Tokens<'t, 'a> {
    /// The tokens of a text, from its bytes in lower case.
    pub fn new(lower: &'a [u8], spans: &'t [Token]) -> Tokens<'t, 'a>
        requires { AreCutFrom lower.now spans.now }
        ensures { result ≡ map (lexed lower.now) spans.now }
    {
        Tokens { lower, spans }
    }

    /// How many they are.
    pub fn len(&self) -> usize
        ensures { result ≡ length self.now }
    {
        self.spans.len()
    }

    /// As they were cut from the text.
    pub fn spans(&self) -> &'t [Token]
        ensures { length result.now ≡ length self.now }
    {
        self.spans
    }

    /// Whether there is none.
    pub fn is_empty(&self) -> bool
        ensures { result ≡ (length self.now == 0) }
    {
        self.spans.is_empty()
    }

    /// The token at a place.
    pub fn token(&self, at: usize) -> Lexeme<'a>
        requires { at < length self.now }
        ensures { from self.now at ≡ tok result ∷ from self.now (at + 1) }
    {
        read_token(self.lower, &self.spans[at])
    }

    /// Those from one place up to another.
    pub fn part(&self, start: usize, end: usize) -> Tokens<'t, 'a>
        requires ordered { start ≤ end }
        requires within { end ≤ length self.now }
        ensures { result ≡ take (end - start) (drop start self.now) }
    {
        Tokens {
            lower: self.lower,
            spans: &self.spans[start..end],
        }
    }
}

/// The token at a place.
pub fn peek<'a>(tokens: &Tokens<'_, 'a>, at: usize) -> Option<Lexeme<'a>>
    ensures found { IfSome result (λ x. from tokens.now at ≡ tok x ∷ from tokens.now (at + 1)) }
    ensures within { IfSome result (λ x. at < length tokens.now) }
    ensures none { IfNone result (from tokens.now at ≡ []) }
    ensures few { length tokens.now < 9223372036854775808 }
{
    match tokens.spans.get(at) {
        Some(token) => Some(read_token(tokens.lower, token)),
        None => None,
    }
}

// Whether the kinds are the same.
fn is_same(kind: TokenKind, other: TokenKind) -> bool
    ensures same { OnTrue result (kind ≡ other) }
    ensures different { OnFalse result (kind ≢ other) }
{
    kind == other
}

/// Whether a token of the kind stands at a place.
pub fn is_kind(tokens: &Tokens, at: usize, kind: TokenKind) -> bool
    ensures test { result ≡ first_is (kind_test kind) (from tokens.now at) }
    ensures shown { OnTrue result (Shown (kind_test kind) (from tokens.now at) (from tokens.now (at + 1))) }
    ensures within { OnTrue result (at < length tokens.now) }
    ensures few { length tokens.now < 9223372036854775808 }
{
    match tokens.spans.get(at) {
        Some(token) => is_same(token.kind, kind),
        None => false,
    }
}
