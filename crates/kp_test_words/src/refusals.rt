//! Words that are no command.

use crate::words::{are_usage, is_usage};
use kp_words::WordStop;
use std::alloc::{AllocError, Global};
use std::test::Fail;

#[test]
fn shapes(rt: HostRuntime) {
    let alloc = rt.alloc();
    let table: [&[&str]; 12] = [
        &[],
        &["plan", "D", "P"],
        &["strip"],
        &["strip", ""],
        &["strip", "T", "T"],
        &["strip", "-"],
        &["strip", "--", "T"],
        &["strip", "T", "-h"],
        &["strip", "T", "--help"],
        &["strip", "T", "--mode", "k0"],
        &[
            "translate",
            "D",
            "P",
            "OD",
            "OP",
            "--mode",
            "k0",
            "--mode",
            "k0",
        ],
        &["classical", "D", "P", "--budget"],
    ];
    for all in table.iter() {
        assert!(rt; is_usage(alloc, *all));
    }
}

#[test]
fn values(rt: HostRuntime) {
    let alloc = rt.alloc();
    let table: [&[&str]; 13] = [
        &["solve", "D", "P", "--budget", "0"],
        &["solve", "D", "P", "--budget", "1000001"],
        &["solve", "D", "P", "--budget", "+1"],
        &["solve", "D", "P", "--budget="],
        &["solve", "D", "P", "--classical", "-c"],
        &["solve", "D", "P", "--implicates", "100001"],
        &["width", "D", "P", "--bound", "03"],
        &["width", "D", "P", "--bound", "9"],
        &["bench", "line", "101"],
        &["bench", "line", "1"],
        &["merges", "D", "P", "--mode", "k4"],
        &["lift", "D", "P", "L", "--mode", "k1", "--merges", "M"],
        &["translate", "D", "P", "O", "O"],
    ];
    for all in table.iter() {
        assert!(rt; is_usage(alloc, *all));
    }
}

// A byte that no character has, alone and within a word, as a name and as the command.
#[test]
fn bytes_that_are_no_text(rt: HostRuntime) {
    let alloc = rt.alloc();
    assert!(rt; are_usage(alloc, [b"strip".as_slice(), b"t\xff".as_slice()].as_slice()));
    assert!(rt; are_usage(alloc, [b"strip".as_slice(), b"\xff".as_slice()].as_slice()));
    assert!(rt; are_usage(alloc, [b"strip\xff".as_slice(), b"t".as_slice()].as_slice()));
}

fn says(alloc: Global, stop: WordStop, message: &str) -> Result<bool, AllocError> {
    Ok(format!(in alloc; "{stop}")?.as_str() == message)
}

#[test]
fn messages(rt: HostRuntime) -> Result<(), Fail> {
    assert!(rt; says(rt.alloc(), WordStop::Usage, "usage")?);
    assert!(rt; says(rt.alloc(), WordStop::Memory, "out of memory")?);
    Ok(())
}
