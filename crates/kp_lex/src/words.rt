ghost use Rattle.std.specs.Prelude.{◌≡◌, ◌≤◌, ◌↔◌, length, slice_range, IfOk, IsTrue};
ghost use Rattle.std.specs.Str.{bytes_eq, str_to_ascii_lowercase};
ghost use Rattle.kp_lex.specs.Words.{folded};

use crate::Token;
use kp_base::{Memory, Text};
use std::alloc::Global;

// The bytes of a token.
fn span<'a>(bytes: &'a [u8], token: &Token) -> &'a [u8]
    requires from { token.now.from ≤ token.now.to }
    requires to { token.now.to ≤ length bytes.now }
    ensures { result.now ≡ slice_range bytes.now token.now.from token.now.to }
{
    &bytes[token.from as usize..token.to as usize]
}

/// The text of a token, its ASCII letters in lower case.
pub fn word(alloc: Global, bytes: &[u8], token: &Token) -> Result<Text, Memory>
    requires from { token.now.from ≤ token.now.to }
    requires to { token.now.to ≤ length bytes.now }
    ensures { IfOk result (λ text. text ≡ folded bytes.now token.now) }
{
    let mut text = Text::new(alloc);
    for byte in span(bytes, token) {
        text.push(byte.to_ascii_lowercase())?;
    }
    Ok(text)
}

// Whether these bytes are the text once they are in lower case.
fn folds_to(bytes: &[u8], text: &[u8]) -> bool
    ensures { result ≡ bytes_eq (str_to_ascii_lowercase bytes.now) text.now }
{
    if bytes.len() != text.len() {
        return false;
    }
    for (i, byte) in bytes.iter().enumerate() {
        if byte.to_ascii_lowercase() != text[i] {
            return false;
        }
    }
    true
}

/// Whether the text of a token, its ASCII letters in lower case, is this text.
pub fn is_word(bytes: &[u8], token: &Token, text: &str) -> bool
    requires from { token.now.from ≤ token.now.to }
    requires to { token.now.to ≤ length bytes.now }
    ensures value { result ≡ bytes_eq (folded bytes.now token.now) text.now }
    ensures same { IsTrue result ↔ (folded bytes.now token.now ≡ text.now) }
{
    folds_to(span(bytes, token), text.as_bytes())
}
