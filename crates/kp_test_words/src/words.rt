//! What the tests make and ask.

use kp_base::{Mode, Text};
use kp_words::{Command, Source, WordStop, command};
use std::alloc::{AllocError, Global};

// The words, as the program gets them.
fn words(alloc: Global, all: &[&str]) -> Result<Vec<Vec<u8>>, AllocError> {
    let mut words = Vec::new(alloc);
    for word in all {
        words.push(word.as_bytes().to_vec(alloc)?)?;
    }
    Ok(words)
}

// The command that words are.
pub fn told(alloc: Global, all: &[&str]) -> Result<Command, WordStop> {
    let words = words(alloc, all)?;
    command(alloc, words.as_slice())
}

// The command that words are which are told by their bytes.
fn told_of_bytes(alloc: Global, all: &[&[u8]]) -> Result<Command, WordStop> {
    let mut words = Vec::new(alloc);
    for word in all {
        words.push(word.to_vec(alloc)?)?;
    }
    command(alloc, words.as_slice())
}

// Whether no command was told, for the words' sake.
fn is_refused(found: &Result<Command, WordStop>) -> bool {
    matches!(found, Err(WordStop::Usage))
}

// Whether words are no command.
pub fn is_usage(alloc: Global, all: &[&str]) -> bool {
    let found = told(alloc, all);
    let is = is_refused(&found);
    drop(found);
    is
}

// Whether words that are told by their bytes are no command.
pub fn are_usage(alloc: Global, all: &[&[u8]]) -> bool {
    let found = told_of_bytes(alloc, all);
    let is = is_refused(&found);
    drop(found);
    is
}

// Whether a name is this one.
pub fn is(name: &Text, wanted: &str) -> bool {
    name.slice() == wanted.as_bytes()
}

// Whether it is the first mode.
pub fn is_k0(mode: Mode) -> bool {
    match mode {
        Mode::K0 => true,
        _ => false,
    }
}

// Whether it is the mode where none is said.
pub fn is_k1(mode: Mode) -> bool {
    match mode {
        Mode::K1 => true,
        _ => false,
    }
}

// Whether merges come from this file.
pub fn is_file(source: &Source, wanted: &str) -> bool {
    match source {
        Source::File(name) => is(name, wanted),
        Source::Mode(_) => false,
    }
}
