//! Names as words.

use kp_base::{GroundName, Memory, Text};
use kp_plans::{decode_name, encode_name};
use std::alloc::Global;

// Whether the texts are these.
fn are(texts: &[Text], wanted: &[&str]) -> bool {
    texts.len() == wanted.len()
        && texts
            .iter()
            .zip(wanted)
            .all(|(text, wanted)| text.slice() == wanted.as_bytes())
}

// Whether the name has this head and these objects.
fn is_named(name: &GroundName, head: &str, objects: &[&str]) -> bool {
    name.head.slice() == head.as_bytes() && are(name.objects.slice(), objects)
}

// The name that a word stands for.
fn named(alloc: Global, word: &str) -> Result<Option<GroundName>, Memory> {
    let word = Text::from_slice(alloc, word.as_bytes())?;
    decode_name(alloc, &word)
}

// Whether the word stands for the name.
fn stands_for(alloc: Global, word: &str, head: &str, objects: &[&str]) -> bool {
    match named(alloc, word) {
        Ok(Some(name)) => is_named(&name, head, objects),
        _ => false,
    }
}

// Whether the word stands for no name.
fn stands_for_none(alloc: Global, word: &str) -> bool {
    matches!(named(alloc, word), Ok(None))
}

// The word of the name that the word stands for.
fn word_again(alloc: Global, word: &str) -> Result<Option<Text>, Memory> {
    let text = Text::from_slice(alloc, word.as_bytes())?;
    match decode_name(alloc, &text)? {
        Some(name) => Ok(Some(encode_name(alloc, &name)?)),
        None => Ok(None),
    }
}

// Whether the name that the word stands for is written as the word.
fn is_written_so(alloc: Global, word: &str) -> bool {
    match word_again(alloc, word) {
        Ok(Some(again)) => again.slice() == word.as_bytes(),
        _ => false,
    }
}

#[test]
fn words_of_names(rt: HostRuntime) {
    let table: [(&str, &str, &[&str]); 5] = [
        ("go__to_-a__1", "go_to", &["a_1"]),
        ("a", "a", &[]),
        ("a_-b_-c", "a", &["b", "c"]),
        ("a-b", "a-b", &[]),
        ("____-x", "__-x", &[]),
    ];
    for (word, head, objects) in table {
        assert!(rt; stands_for(rt.alloc(), word, head, objects), "{word}");
        assert!(rt; is_written_so(rt.alloc(), word), "{word}");
    }
}

#[test]
fn words_of_no_name(rt: HostRuntime) {
    for word in ["a_b", "a_", "a_-", "", "_-a", "a_-_-b", "a___b", "_"] {
        assert!(rt; stands_for_none(rt.alloc(), word), "{word}");
    }
}
