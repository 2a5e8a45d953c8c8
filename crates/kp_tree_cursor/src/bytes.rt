ghost use Rattle.std.specs.Prelude.{◌≡◌, ◌≤◌, drop, length, IfOk};
ghost use Rattle.std.specs.Str.{str_to_ascii_lowercase};
ghost use Rattle.kp_base.specs.Files.{most_bytes};
ghost use Rattle.kp_lex.specs.Cutting.{Cut};
ghost use Rattle.kp_tree_grammar.specs.Symbols.{all_seen_in};
ghost use Rattle.kp_tree_cursor.specs.Lexemes.{byte_at};

use kp_lex::Token;
use std::alloc::{AllocError, Allocator};

/// The first byte of a token, or the end of the text where no token has the number.
pub fn byte_of(bytes: &[u8], tokens: &[Token], number: usize) -> u32
    requires short { length bytes.now ≤ most_bytes }
    requires cut { Cut 0 bytes.now tokens.now }
    ensures value { result ≡ byte_at bytes.now (all_seen_in bytes.now (drop number tokens.now)) }
    ensures within { result ≤ length bytes.now }
{
    match tokens.get(number) {
        Some(token) => token.from,
        None => bytes.len() as u32,
    }
}

/// All bytes in lower case.
pub fn lower_case<A: Allocator>(alloc: A, bytes: &[u8]) -> Result<Vec<u8, A>, AllocError>
    ensures { IfOk result (λ lower. lower.items ≡ str_to_ascii_lowercase bytes.now) }
{
    bytes.iter().map(|b| b.to_ascii_lowercase()).collect(alloc)
}
