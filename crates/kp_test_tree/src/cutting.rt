use kp_base::{Memory, Part, Place, Refused, Stop};
use kp_lex::TokenKind::{Dash, Equal, Keyword, Left, Name, Right, Variable};
use kp_lex::{Token, TokenKind, is_word, place, tokens, tokens_within, word};
use std::alloc::Global;
use std::test::Fail;

type Expected<'a> = (TokenKind, u32, u32, &'a str);

const DASHES: &[Expected<'static>] = &[
    (Name, 0, 3, "a-b"),
    (Dash, 4, 5, "-"),
    (Dash, 6, 7, "-"),
    (Name, 7, 8, "c"),
    (Variable, 9, 11, "?x"),
    (Keyword, 11, 13, ":y"),
];

const COMMENT: &[Expected<'static>] = &[
    (Left, 0, 1, "("),
    (Name, 1, 5, "0o_a"),
    (Equal, 12, 13, "="),
    (Right, 13, 14, ")"),
];

const SIGNS: &[Expected<'static>] = &[(Variable, 0, 4, "?a-z"), (Keyword, 4, 9, ":9_z-")];

// Whether a copy of a token's word is this text.
fn is_copied(alloc: Global, text: &[u8], token: &Token, folded: &str) -> Result<bool, Memory> {
    if token.from > token.to || token.to as usize > text.len() {
        return Ok(false);
    }
    let copy = word(alloc, text, token)?;
    Ok(copy.slice() == folded.as_bytes())
}

// Whether a token is of this kind, at this span, with this text.
fn is_expected(
    alloc: Global,
    text: &[u8],
    token: &Token,
    expected: &Expected,
) -> Result<bool, Memory> {
    let (kind, from, to, folded) = *expected;
    if token.from > token.to || token.to as usize > text.len() {
        return Ok(false);
    }
    if token.kind != kind || token.from != from || token.to != to {
        return Ok(false);
    }
    if !is_word(text, token, folded) {
        return Ok(false);
    }
    is_copied(alloc, text, token, folded)
}

// Whether these are the tokens that are expected, in their order.
fn are_expected(
    alloc: Global,
    text: &[u8],
    found: &[Token],
    expected: &[Expected],
) -> Result<bool, Memory> {
    if found.len() != expected.len() {
        return Ok(false);
    }
    for (token, one) in found.iter().zip(expected) {
        if !is_expected(alloc, text, token, one)? {
            return Ok(false);
        }
    }
    Ok(true)
}

// Whether a text is cut into these tokens.
fn is_cut(alloc: Global, text: &[u8], expected: &[Expected]) -> Result<bool, Stop> {
    if text.len() >= 20 {
        return Ok(false);
    }
    let row = tokens(alloc, Part::Domain, text)?;
    let is_cut = are_expected(alloc, text, row.slice(), expected);
    drop(row);
    Ok(is_cut?)
}

// Whether this byte of a text, in this line, is refused as a bad token.
fn is_bad_at(alloc: Global, text: &[u8], line: u32, byte: u32) -> bool {
    if text.len() >= 20 {
        return false;
    }
    match tokens(alloc, Part::Plan, text) {
        Err(Stop::Refused(Refused::BadToken(found))) => {
            found
                == Place {
                    part: Part::Plan,
                    line,
                    byte,
                }
        }
        Err(_other) => false,
        Ok(_row) => false,
    }
}

#[test]
fn cuts(rt: HostRuntime) {
    let table: [(&[u8], &[Expected]); 4] = [
        (b"a-b - -c ?x:y", DASHES),
        (b"(0O_a; \xff?\r;\n=)", COMMENT),
        (b"?A-z:9_Z-", SIGNS),
        (b" \t\r\n; .", &[]),
    ];
    for (text, expected) in table {
        assert!(rt;
            matches!(is_cut(rt.alloc(), text, expected), Ok(true)),
            "{text:?}"
        );
    }
}

#[test]
fn refuses_a_bad_byte(rt: HostRuntime) {
    let table: [(&[u8], u32, u32); 8] = [
        (b"(p.)", 1, 2),
        (b"?", 1, 0),
        (b"a\n\n? b", 3, 3),
        (b":-", 1, 0),
        (b"?_", 1, 0),
        (b"a _", 1, 2),
        (b"a\xff", 1, 1),
        (b"; .\n.", 2, 4),
    ];
    for (text, line, byte) in table {
        assert!(rt; is_bad_at(rt.alloc(), text, line, byte), "{text:?}");
    }
}

// Whether with two levels so many tokens of a text are kept, which are those of so many bytes.
fn is_kept(alloc: Global, text: &[u8], count: usize, to: u32) -> Result<bool, Stop> {
    if text.len() >= 20 {
        return Ok(false);
    }
    let begun = tokens_within(alloc, Part::Domain, text, 2)?;
    Ok(begun.tokens.len() == count && begun.to == to)
}

#[test]
fn keeps_up_to_a_deep_bracket(rt: HostRuntime) {
    let table: [(&[u8], usize, u32); 5] = [
        (b"((a) b) ", 6, 8),
        (b"( ( ( a)", 3, 5),
        (b"(()((x) ", 5, 5),
        (b")((((", 5, 5),
        (b"a ;(((", 1, 6),
    ];
    for (text, count, to) in table {
        assert!(rt;
            matches!(is_kept(rt.alloc(), text, count, to), Ok(true)),
            "{text:?}"
        );
    }
}

// Whether a text has its bad token behind a deep bracket.
fn is_bad_behind(alloc: Global, text: &[u8], there: Place) -> bool {
    let bad = is_kept(alloc, text, 3, 3);
    let is_there = matches!(&bad, Err(Stop::Refused(Refused::BadToken(found))) if *found == there);
    drop(bad);
    is_there
}

#[test]
fn refuses_a_bad_byte_behind_a_deep_bracket(rt: HostRuntime) {
    let there = Place {
        part: Part::Domain,
        line: 2,
        byte: 4,
    };
    assert!(rt; is_bad_behind(rt.alloc(), b"(((\n_", there));
}

#[test]
fn counts_lines(rt: HostRuntime) {
    let text = b"a\nb\n";
    for (byte, line) in [(0, 1), (1, 1), (2, 2), (3, 2), (4, 3)] {
        let found = place(Part::Merges, text, byte);
        assert_eq!(rt;
            (found.part, found.line, found.byte),
            (Part::Merges, line, byte)
        );
    }
}
