ghost use Rattle.std.specs.Prelude.{◌≡◌, ◌<◌, ◌∷◌, length, map, IfOk};
ghost use Rattle.kp_tree_cursor.specs.Lexemes.{word_of};

use kp_base::{GroundName, Memory, Row, Text};
use kp_tree_cursor::{Tokens, peek};
use std::alloc::Global;

// The texts of some words.
fn texts(alloc: Global, words: &Tokens) -> Result<Row<Text>, Memory>
    ensures { IfOk result (λ texts. texts ≡ map (λ w. (word_of w).text) words.now) }
{
    let mut texts = Row::new(alloc);
    let mut at = 0;
    'each: while let Some(word) = peek(words, at) {
        texts.push(Text::from_slice(alloc, word.text.as_bytes())?)?;
        at += 1;
    }
    Ok(texts)
}

/// The name with these words: the first is its head.
pub fn name_of(alloc: Global, words: &Tokens) -> Result<GroundName, Memory>
    requires { 0 < length words.now }
    ensures { IfOk result (λ n. n.head ∷ n.objects ≡ map (λ w. (word_of w).text) words.now) }
{
    let head = Text::from_slice(alloc, words.token(0).text.as_bytes())?;
    let objects = texts(alloc, &words.part(1, words.len()))?;
    Ok(GroundName { head, objects })
}
