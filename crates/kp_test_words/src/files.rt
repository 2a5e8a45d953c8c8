//! Texts that ask for a command, and the files that it reads.

use kp_words::{Asked, WordStop, asked_by};
use std::alloc::{AllocError, Global};

// The files that a command reads, in order.
fn files_of<'a>(alloc: Global, asked: &Asked<'a>) -> Result<Vec<&'a [u8]>, AllocError> {
    let mut files = Vec::new(alloc);
    for name in asked.verb.reads() {
        if let Some(file) = asked.file(*name) {
            files.push(file)?;
        }
    }
    Ok(files)
}

// Whether files have these names.
fn are_named(files: &[&[u8]], wanted: &[&str]) -> bool {
    for (number, file) in files.iter().enumerate() {
        match wanted.get(number) {
            Some(one) => {
                if one.as_bytes() != *file {
                    return false;
                }
            }
            None => return false,
        }
    }
    files.len() == wanted.len()
}

// Whether a command reads files with these names.
fn are_read(alloc: Global, asked: &Asked<'_>, wanted: &[&str]) -> bool {
    match files_of(alloc, asked) {
        Ok(files) => are_named(files.as_slice(), wanted),
        Err(_) => false,
    }
}

// Whether texts ask for a command that reads these files.
fn reads(alloc: Global, all: &[&str], wanted: &[&str]) -> bool {
    match asked_by(alloc, all) {
        Ok(asked) => are_read(alloc, &asked, wanted),
        Err(_) => false,
    }
}

// Whether texts ask for nothing, and not for want of memory.
fn asks_nothing(alloc: Global, all: &[&str]) -> bool {
    match asked_by(alloc, all) {
        Ok(_) => false,
        Err(WordStop::Usage) => true,
        Err(WordStop::Memory) => false,
    }
}

#[test]
fn files_of_plans(rt: HostRuntime) {
    let alloc = rt.alloc();
    assert!(rt; reads(alloc, &["strip", "t"], &["t"]));
    assert!(rt; reads(alloc, &["check", "d", "p", "l"], &["d", "p", "l"]));
    assert!(rt; reads(alloc, &["lift", "d", "p", "l"], &["d", "p", "l"]));
    assert!(rt;
        reads(
            alloc,
            &["lift", "d", "p", "l", "--merges", "m"],
            &["d", "p", "m", "l"]
        )
    );
}

#[test]
fn files_of_problems(rt: HostRuntime) {
    let alloc = rt.alloc();
    assert!(rt; reads(alloc, &["translate", "d", "p", "x", "y"], &["d", "p"]));
    assert!(rt;
        reads(
            alloc,
            &["translate", "--merges=m", "d", "p", "x", "y"],
            &["d", "p", "m"]
        )
    );
    assert!(rt; reads(alloc, &["solve", "d", "p", "--classical", "c"], &["d", "p"]));
    assert!(rt; reads(alloc, &["classical", "d", "p"], &["d", "p"]));
    assert!(rt; reads(alloc, &["width", "d", "p"], &["d", "p"]));
    assert!(rt; reads(alloc, &["merges", "d", "p"], &["d", "p"]));
    assert!(rt; reads(alloc, &["bench", "line", "2"], &[]));
}

#[test]
fn texts_that_ask_nothing(rt: HostRuntime) {
    let alloc = rt.alloc();
    assert!(rt; asks_nothing(alloc, &[]));
    assert!(rt; asks_nothing(alloc, &["verify", "d", "p"]));
    assert!(rt; asks_nothing(alloc, &["strip", "t", "t"]));
    assert!(rt; asks_nothing(alloc, &["translate", "d", "p", "x", "x"]));
}
