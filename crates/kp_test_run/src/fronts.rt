//! Files that end too early: each front of each input.
use crate::running::{CELLS, ONE_IS_FULL, words_of};
use kp_base::Memory;
use kp_outside::{MemoryShelf, MemorySink};
use kp_run::run;
use std::alloc::Global;
use std::test::Fail;

const PLAN: &str = "(left)(left)\n";

const WHOLE_PLAN: &str = "(do_-left)(merge_-0)\n";

const MERGES: &str = "(merge (x1) ((x1)) ((x2)) ((x3)))\n";

// A shelf that holds the cells and what is done with them, but for one name a front of its text.
fn shelf_with_front(alloc: Global, cut: &str, size: usize) -> Result<MemoryShelf, Memory> {
    let held = [
        ("d", CELLS),
        ("p", ONE_IS_FULL),
        ("plan", PLAN),
        ("t", WHOLE_PLAN),
        ("m", MERGES),
    ];
    let mut shelf = MemoryShelf::new(alloc)?;
    for (name, content) in held {
        let bytes = content.as_bytes();
        if name == cut && size <= bytes.len() {
            shelf.hold(name.as_bytes(), &bytes[..size])?;
        } else {
            shelf.hold(name.as_bytes(), bytes)?;
        }
    }
    Ok(shelf)
}

// What a run ends with, what it printed, and whether it put something.
#[derive(Drop)]
struct Ended {
    number: u8,
    sink: MemorySink,
    has_put: bool,
}

// How words end on a shelf where one input is cut.
fn end_of(alloc: Global, words: &[&str], cut: &str, size: usize) -> Result<Ended, Memory> {
    let mut shelf = shelf_with_front(alloc, cut, size)?;
    let mut sink = MemorySink::new(alloc)?;
    let words = words_of(alloc, words, &[])?;
    let status = run(alloc, &words, &mut shelf, &mut sink);
    Ok(Ended {
        number: status.number(),
        has_put: shelf.held(b"od".as_slice()).is_some() || shelf.held(b"op".as_slice()).is_some(),
        sink,
    })
}

// Whether a run printed a text that begins with one of these.
fn begins(ended: &Ended, fronts: &[&str]) -> bool {
    let printed = ended.sink.bytes().slice();
    fronts
        .iter()
        .any(|front| printed.starts_with(front.as_bytes()))
}

// Whether words on each proper front of an input end with one of two numbers, or are refused with one of these texts and
// nothing put.
fn reads_or_refuses(
    alloc: Global,
    words: &[&str],
    cut: (&str, &str),
    numbers: (u8, u8),
    refusals: &[&str],
) -> Result<bool, Memory> {
    for size in 0..cut.1.len() {
        let ended = end_of(alloc, words, cut.0, size)?;
        let is_read = ended.number == numbers.0 || ended.number == numbers.1;
        let is_refused = ended.number == 3 && !ended.has_put && begins(&ended, refusals);
        if !is_read && !is_refused {
            return Ok(false);
        }
    }
    Ok(true)
}

// Each proper front of a domain is refused: as a token where it ends with a colon, else as a text.
#[test]
fn fronts_of_a_domain(rt: HostRuntime) -> Result<(), Fail> {
    let words = ["translate", "d", "p", "od", "op"];
    let bytes = CELLS.as_bytes();
    for size in 0..bytes.len() {
        let ended = end_of(rt.alloc(), words.as_slice(), "d", size)?;
        assert!(rt; ended.number == 3 && !ended.has_put);
        if bytes[..size].last() == Some(&b':') {
            assert!(rt; begins(&ended, &["refused 2 BadToken\nat domain line 1 byte "]));
        } else {
            assert!(rt; begins(&ended, &["refused 3 Syntax\nat domain line 1 byte "]));
        }
    }
    assert!(rt; bytes.len() == 149);
    assert!(rt; bytes.iter().filter(|byte| **byte == b':').count() == 3);
    Ok(())
}

// Each proper front of a problem is refused, as a token or as a text.
#[test]
fn fronts_of_a_problem(rt: HostRuntime) -> Result<(), Fail> {
    let words = ["translate", "d", "p", "od", "op"];
    let refusals = [
        "refused 2 BadToken\nat problem line 1 byte ",
        "refused 3 Syntax\nat problem line 1 byte ",
    ];
    for size in 0..ONE_IS_FULL.len() {
        let ended = end_of(rt.alloc(), words.as_slice(), "p", size)?;
        assert!(rt; ended.number == 3 && !ended.has_put);
        assert!(rt; begins(&ended, refusals.as_slice()));
    }
    Ok(())
}

// Fronts of merges and of plans read, or are refused as what they are.
#[test]
fn fronts_of_merges_and_plans(rt: HostRuntime) -> Result<(), Fail> {
    let alloc = rt.alloc();
    let translate = ["translate", "d", "p", "od", "op", "--merges", "m"];
    let lift = ["lift", "d", "p", "plan"];
    let check = ["check", "d", "p", "plan"];
    let merges = [
        "refused 2 BadToken\nat merges line 1 byte ",
        "refused 14 MergeSyntax\nat merges line 1 byte ",
    ];
    let plans = [
        "refused 2 BadToken\nat plan line 1 byte ",
        "refused 19 PlanSyntax\nat plan line 1 byte ",
    ];
    assert!(rt;
        reads_or_refuses(
            alloc,
            translate.as_slice(),
            ("m", MERGES),
            (0, 0),
            merges.as_slice()
        )?
    );
    assert!(rt;
        reads_or_refuses(
            alloc,
            lift.as_slice(),
            ("plan", PLAN),
            (0, 1),
            plans.as_slice()
        )?
    );
    assert!(rt;
        reads_or_refuses(
            alloc,
            check.as_slice(),
            ("plan", PLAN),
            (0, 1),
            plans.as_slice()
        )?
    );
    assert!(rt;
        reads_or_refuses(
            alloc,
            &["strip", "t"],
            ("t", WHOLE_PLAN),
            (0, 0),
            plans.as_slice()
        )?
    );
    Ok(())
}
