ghost use Rattle.std.specs.Prelude.{◌≡◌, ◌≤◌, length};
ghost use Rattle.std.specs.List.{prefix_len};
ghost use Rattle.kp_lex.specs.Bytes.{follows, in_line};
ghost use Rattle.kp_lex.specs.Pieces.{piece_of, signed, FitsIn, FitsInSigned};

use crate::TokenKind;
use crate::class::{Class, classify};

/// What stands at the front of bytes, and how many bytes it takes.
#[derive(Clone, Copy, Debug, PartialEq, Eq)]
pub(crate) enum Piece {
    Skip(usize),
    Token(TokenKind, usize),
    Bad,
}

// How many bytes go on with a name.
fn run(bytes: &[u8]) -> usize
    ensures value { result ≡ prefix_len follows bytes.now }
    ensures within { result ≤ length bytes.now }
{
    bytes
        .iter()
        .take_while(|b| matches!(
            classify(**b),
            Class::Alphanumeric | Class::Dash | Class::Underscore
        ))
        .count()
}

// How many bytes go on with a comment.
fn line(bytes: &[u8]) -> usize
    ensures value { result ≡ prefix_len in_line bytes.now }
    ensures within { result ≤ length bytes.now }
{
    bytes
        .iter()
        .take_while(|b| !matches!(classify(**b), Class::LineFeed))
        .count()
}

// A name behind a sign.
fn signed(kind: TokenKind, rest: &[u8]) -> Piece
    ensures value { result ≡ signed kind rest.now }
    ensures within { FitsInSigned result rest.now }
{
    let Some((first, after)) = rest.split_first() else {
        return Piece::Bad;
    };
    if matches!(classify(*first), Class::Alphanumeric) {
        Piece::Token(kind, 2 + run(after))
    } else {
        Piece::Bad
    }
}

pub(crate) fn front(bytes: &[u8]) -> Piece
    ensures value { result ≡ piece_of bytes.now }
    ensures within { FitsIn result bytes.now }
{
    let Some((first, rest)) = bytes.split_first() else {
        return Piece::Bad;
    };
    match classify(*first) {
        Class::Alphanumeric => Piece::Token(TokenKind::Name, 1 + run(rest)),
        Class::Left => Piece::Token(TokenKind::Left, 1),
        Class::Right => Piece::Token(TokenKind::Right, 1),
        Class::Dash => Piece::Token(TokenKind::Dash, 1),
        Class::Equal => Piece::Token(TokenKind::Equal, 1),
        Class::Question => signed(TokenKind::Variable, rest),
        Class::Colon => signed(TokenKind::Keyword, rest),
        Class::Semicolon => Piece::Skip(1 + line(rest)),
        Class::LineFeed | Class::Blank => Piece::Skip(1),
        Class::Underscore | Class::Other => Piece::Bad,
    }
}
