ghost use Rattle.std.specs.Prelude.{◌≡◌, ℕ, ◌+◌, ◌≤◌, ◌<◌, length, drop, List, IfOk, MatchResult};
ghost use Rattle.kp_base.specs.Files.{most_bytes};
ghost use Rattle.kp_lex.specs.declared.token.Token.{Token};
ghost use Rattle.kp_lex.specs.Cutting.{Cut, BadAt, spanned};
ghost use Rattle.kp_lex.specs.Spans.{InOrder};
ghost use Rattle.kp_lex.specs.Answers.{IsRight, IsRightWithin, GivesTokens, RefusesAt};
ghost use Rattle.kp_lex.specs.Levels.{behind, levels_left};
ghost use Rattle.kp_lex.specs.Scanning.{cut, Fails, Begins};

use crate::piece::{Piece, front};
use crate::places::place;
use crate::{Token, TokenKind};
use kp_base::{Part, Refused, Row, Stop};
use std::alloc::Global;

// The bytes from this one on.
fn tail(bytes: &[u8], at: usize) -> &[u8]
    requires { at ≤ length bytes.now }
    ensures { result.now ≡ drop at bytes.now }
{
    &bytes[at..]
}

/// The tokens with which a text begins.
#[derive(Drop)]
pub struct Beginning {
    /// The tokens in order.
    pub tokens: Row<Token>,
    /// They are those of so many bytes.
    pub to: u32,
}

// How many levels may still be opened behind a token, where `left` may be before it; none where it opens one too many.
fn behind(left: usize, kind: TokenKind) -> Option<usize>
    requires { left < 9223372036854775808 }
    ensures { result ≡ behind left kind }
{
    match kind {
        TokenKind::Left => left.checked_sub(1),
        TokenKind::Right => Some(left + 1),
        _ => Some(left),
    }
}

// The token of so many bytes, from this one on.
fn spanned(kind: TokenKind, at: usize, n: usize) -> Token
    requires { at + n ≤ most_bytes }
    ensures { result ≡ spanned kind at n }
{
    Token {
        kind,
        from: at as u32,
        to: (at + n) as u32,
    }
}

// Where the tokens that are kept end, behind one that ends here and where they ended `to` before it.
fn end(left: Option<usize>, here: usize, to: usize) -> usize
    ensures { result ≡ levels_left left here (λ n. to) }
{
    match left {
        Some(_) => to,
        None => here,
    }
}

// The loop of `tokens` and `tokens_within`. Behind a bracket that opens one level too many no token is kept.
fn cut_up_to(alloc: Global, part: Part, bytes: &[u8], levels: u32) -> Result<Beginning, Stop>
    requires { length bytes.now ≤ most_bytes }
    ensures { MatchResult result (λ b. Begins levels bytes.now b) (λ e. Fails part bytes.now e (cut 0 bytes.now)) }
{
    let mut tokens = Row::new(alloc);
    let mut left = Some(levels as usize);
    let mut to = bytes.len();
    let mut at = 0;
    'pieces: while at < bytes.len() {
        match front(tail(bytes, at)) {
            Piece::Skip(n) => at += n,
            Piece::Token(kind, n) => {
                if let Some(open) = left {
                    tokens.push(spanned(kind, at, n))?;
                    left = behind(open, kind);
                    to = end(left, at + n, to);
                }
                at += n;
            }
            Piece::Bad => {
                return Err(Stop::Refused(Refused::BadToken(place(part, bytes, at as u32))));
            }
        }
    }
    Ok(Beginning {
        tokens,
        to: to as u32,
    })
}

// No text has so many brackets that one of them would be too deep.
fn cut_all(alloc: Global, part: Part, bytes: &[u8]) -> Result<Row<Token>, Stop>
    requires { length bytes.now ≤ most_bytes }
    ensures { MatchResult result (λ ts. cut 0 bytes.now ≡ Ok ts) (λ e. Fails part bytes.now e (cut 0 bytes.now)) }
{
    let Beginning { tokens, to: _ } = cut_up_to(alloc, part, bytes, u32::MAX)?;
    Ok(tokens)
}

/// The tokens of a file in order.
///
/// At the first byte with which no token, blank or comment can begin, the file is refused with `BadToken` and the
/// byte's place. No other refusal comes.
pub fn tokens(alloc: Global, part: Part, bytes: &[u8]) -> Result<Row<Token>, Stop>
    requires { length bytes.now ≤ most_bytes }
    // What is answered is so.
    ensures right { IsRight part bytes.now result }
    // A text that is cut has its tokens answered.
    ensures cut { (ts : List Token) → Cut 0 bytes.now ts → GivesTokens ts result }
    // A text with a bad byte is refused there.
    ensures bad { (i : ℕ) → BadAt 0 bytes.now i → RefusesAt part bytes.now i result }
    ensures spans { IfOk result (λ ts. InOrder 0 ts (length bytes.now)) }
{
    cut_all(alloc, part, bytes)
}

/// The tokens with which a file begins, up to and with the first bracket that opens one level more than so many.
///
/// All bytes are gone over: a bad byte is refused as `tokens` refuses it, also where it stands behind that bracket.
/// No token is kept from behind it.
pub fn tokens_within(
    alloc: Global,
    part: Part,
    bytes: &[u8],
    levels: u32,
) -> Result<Beginning, Stop>
    requires { length bytes.now ≤ most_bytes }
    ensures { IsRightWithin part levels bytes.now result }
{
    cut_up_to(alloc, part, bytes, levels)
}
