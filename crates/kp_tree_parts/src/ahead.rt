//! How much room lists of parts take, read ahead, so that they seldom move in the arena. No clause speaks of it.

ghost use Rattle.std.specs.Prelude.{◌≤◌, length};

use kp_lex::TokenKind;
use kp_tree_cursor::Tokens;

/// How many brackets open from a place on, those within them not counted, before the bracket around the place closes.
pub fn parts_ahead(tokens: &Tokens, at: usize) -> usize
    requires { at ≤ length tokens.now }
{
    let mut open = 0u32;
    let mut parts = 0usize;
    for token in &tokens.spans()[at..] {
        match token.kind {
            TokenKind::Left => {
                if open == 0 {
                    parts = parts.saturating_add(1);
                }
                open = open.saturating_add(1);
            }
            TokenKind::Right => {
                if open == 0 {
                    return parts;
                }
                open -= 1;
            }
            _ => {}
        }
    }
    parts
}
