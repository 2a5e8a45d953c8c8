//! Lines of words for all commands, with each call of the shelf failing in its turn, and with the first write failing.
use crate::running::{CELLS, DOMAIN, ONE_IS_FULL, PROBLEM, words_of};
use crate::solving::{WRITTEN_DOMAIN, WRITTEN_PROBLEM};
use kp_base::Memory;
use kp_outside::{MemoryShelf, MemorySink};
use kp_run::run;
use std::alloc::Global;
use std::test::Fail;

// The number of a call that never comes.
const NEVER: u64 = 100;

// A line of words, how many files it reads, and which names it puts, in order.
#[derive(Clone, Copy)]
struct Line {
    words: &'static [&'static str],
    gets: u8,
    outputs: &'static [&'static str],
}

fn lines() -> [Line; 10] {
    [
        Line {
            words: &["translate", "da", "pa", "od", "op"],
            gets: 2,
            outputs: &["od", "op"],
        },
        Line {
            words: &["translate", "db", "pb", "od", "op", "--merges", "m"],
            gets: 3,
            outputs: &["od", "op"],
        },
        Line {
            words: &["solve", "da", "pa", "--classical", "f"],
            gets: 2,
            outputs: &["f"],
        },
        Line {
            words: &["lift", "db", "pb", "pl", "--merges", "m"],
            gets: 4,
            outputs: &[],
        },
        Line {
            words: &["check", "da", "pa", "pla"],
            gets: 3,
            outputs: &[],
        },
        Line {
            words: &["width", "db", "pb"],
            gets: 2,
            outputs: &[],
        },
        Line {
            words: &["merges", "db", "pb"],
            gets: 2,
            outputs: &[],
        },
        Line {
            words: &["classical", "cd", "cp"],
            gets: 2,
            outputs: &[],
        },
        Line {
            words: &["strip", "t"],
            gets: 1,
            outputs: &[],
        },
        Line {
            words: &["bench", "line", "2"],
            gets: 0,
            outputs: &[],
        },
    ]
}

// A shelf that holds what the lines read.
fn shelf_of_all(alloc: Global) -> Result<MemoryShelf, Memory> {
    let held = [
        ("da", DOMAIN),
        ("pa", PROBLEM),
        ("pla", "(a)"),
        ("db", CELLS),
        ("pb", ONE_IS_FULL),
        ("pl", "(left)(left)"),
        ("m", "(merge (x1) ((x1)) ((x2)) ((x3)))"),
        ("cd", WRITTEN_DOMAIN),
        ("cp", WRITTEN_PROBLEM),
        ("t", "(do_-left)(merge_-0)"),
    ];
    let mut shelf = MemoryShelf::new(alloc)?;
    for (name, content) in held {
        shelf.hold(name.as_bytes(), content.as_bytes())?;
    }
    Ok(shelf)
}

// The number that a run ends with, whether it printed nothing, and the shelf behind it.
#[derive(Drop)]
struct Ended {
    number: u8,
    is_silent: bool,
    shelf: MemoryShelf,
}

// How words end where these calls of the shelf and of the sink fail.
fn end_of(alloc: Global, words: &[&str], get_or_put: u64, write: u64) -> Result<Ended, Memory> {
    let mut shelf = shelf_of_all(alloc)?;
    shelf.fail_at(get_or_put)?;
    let mut sink = MemorySink::new(alloc)?;
    sink.fail_at(write)?;
    let words = words_of(alloc, words, &[])?;
    let status = run(alloc, &words, &mut shelf, &mut sink);
    Ok(Ended {
        number: status.number(),
        is_silent: sink.bytes().slice().is_empty(),
        shelf,
    })
}

// Whether of some names the first are held as another shelf holds them, and the others not at all.
fn are_held(shelf: &MemoryShelf, whole: &MemoryShelf, names: &[&str], first: usize) -> bool {
    names.iter().enumerate().all(|(place, name)| is_held(
        shelf,
        whole,
        name.as_bytes(),
        place < first,
    ))
}

// Whether a name is held as another shelf holds it; or, where it is not to be, isn't held.
fn is_held(shelf: &MemoryShelf, whole: &MemoryShelf, name: &[u8], is_due: bool) -> bool {
    match (shelf.held(name), whole.held(name)) {
        (Some(content), Some(text)) => is_due && content.slice() == text.slice(),
        (None, _) => !is_due,
        _ => false,
    }
}

// Whether a line ends with this number where these calls fail, with this many outputs put, each whole.
fn ends_so(
    alloc: Global,
    line: &Line,
    calls: (u64, u64),
    number: u8,
    first: usize,
) -> Result<bool, Memory> {
    let whole = end_of(alloc, line.words, NEVER, NEVER)?;
    let ended = end_of(alloc, line.words, calls.0, calls.1)?;
    let is_told = ended.number == number && ended.is_silent == (number != 0);
    Ok(is_told && are_held(&ended.shelf, &whole.shelf, line.outputs, first))
}

// The number of a line's call behind its gets and so many puts.
fn call_behind(line: &Line, puts: usize) -> u64 {
    (line.gets as u64 + 1).saturating_add(puts as u64)
}

// Where none of its calls fails, each line is done; and there are no more calls than the table says.
#[test]
fn no_call_fails(rt: HostRuntime) -> Result<(), Fail> {
    for line in lines() {
        let puts = line.outputs.len();
        let calls = (call_behind(&line, puts), 2);
        assert!(rt; ends_so(rt.alloc(), &line, calls, 0, puts)?);
    }
    Ok(())
}

// A read that fails leaves nothing put and nothing printed.
#[test]
fn each_get_fails(rt: HostRuntime) -> Result<(), Fail> {
    for line in lines() {
        for before in 0..line.gets {
            let call = before as u64 + 1;
            assert!(rt; ends_so(rt.alloc(), &line, (call, NEVER), 5, 0)?);
        }
    }
    Ok(())
}

// A put that fails leaves what was put before it, and nothing printed.
#[test]
fn each_put_fails(rt: HostRuntime) -> Result<(), Fail> {
    for line in lines() {
        for before in 0..line.outputs.len() {
            let call = call_behind(&line, before);
            assert!(rt; ends_so(rt.alloc(), &line, (call, NEVER), 6, before)?);
        }
    }
    Ok(())
}

// A write that fails leaves each output whole.
#[test]
fn the_first_write_fails(rt: HostRuntime) -> Result<(), Fail> {
    for line in lines() {
        assert!(rt; ends_so(rt.alloc(), &line, (NEVER, 1), 6, line.outputs.len())?);
    }
    Ok(())
}

// A name that isn't held can't be read.
#[test]
fn a_name_that_is_not_held(rt: HostRuntime) -> Result<(), Fail> {
    let words = ["translate", "x", "pa", "od", "op"];
    let ended = end_of(rt.alloc(), words.as_slice(), NEVER, NEVER)?;
    assert!(rt; ended.number == 5 && ended.is_silent);
    assert!(rt; ended.shelf.held(b"od".as_slice()).is_none());
    assert!(rt; ended.shelf.held(b"op".as_slice()).is_none());
    Ok(())
}

// The plan is put before the write that fails.
#[test]
fn a_plan_is_put_first(rt: HostRuntime) -> Result<(), Fail> {
    let words = ["solve", "da", "pa", "--classical", "f"];
    let ended = end_of(rt.alloc(), words.as_slice(), NEVER, 1)?;
    assert!(rt; ended.number == 6);
    match ended.shelf.held(b"f".as_slice()) {
        Some(content) => assert!(rt; content.slice() == b"(do_-a)\n".as_slice()),
        None => assert!(rt; false),
    }
    Ok(())
}
