use crate::running::{DOMAIN, PROBLEM, USAGE, holds, is_so, shelf_of, translate_words};
use kp_base::Memory;
use kp_outside::{MemoryShelf, MemorySink};
use kp_run::run;
use std::alloc::Global;

const DOMAIN_OUT: &str = "(define (domain kplan)
(:requirements :strips :negative-preconditions :conditional-effects)
(:predicates
(kp_-p_-0)
(kn_-p_-0)
(kp_-q_-0)
(kn_-q_-0)
)
(:action do_-a
:parameters ()
:precondition (and (kp_-p_-0))
:effect (and
(kp_-q_-0)
(not (kn_-q_-0))
(kn_-p_-0)
(not (kp_-p_-0))
)
)
)
";

const PROBLEM_OUT: &str = "(define (problem kplan)
(:domain kplan)
(:init
(kp_-p_-0)
(kn_-q_-0)
)
(:goal (and
(kp_-q_-0)
))
)
";

const REPORT: &str = "atoms 2\nactions 1\ntags 1\nmerges 0\nfacts 4\ncomplete\n";

// The call of the shelf and that of the sink that fail.
#[derive(Clone, Copy)]
struct Failing {
    shelf: u64,
    sink: u64,
}

// What a run comes to: its number, its printed text, and the two outputs, where they are held.
#[derive(Clone, Copy)]
struct Outcome {
    number: u8,
    printed: &'static str,
    domain: Option<&'static str>,
    problem: Option<&'static str>,
}

fn sink_of(alloc: Global, failing: &Failing) -> Result<MemorySink, Memory> {
    let mut sink = MemorySink::new(alloc)?;
    sink.fail_at(failing.sink)?;
    Ok(sink)
}

// Whether these words come to this on that shelf.
fn runs_to(
    alloc: Global,
    words: &[Vec<u8>],
    shelf: &mut MemoryShelf,
    failing: &Failing,
    outcome: &Outcome,
) -> Result<bool, Memory> {
    let mut sink = sink_of(alloc, failing)?;
    let status = run(alloc, words, shelf, &mut sink);
    Ok(status.number() == outcome.number && sink.bytes().slice() == outcome.printed.as_bytes())
}

fn failing_shelf(alloc: Global, failing: &Failing) -> Result<MemoryShelf, Memory> {
    let mut shelf = shelf_of(alloc, DOMAIN.as_bytes(), PROBLEM.as_bytes())?;
    shelf.fail_at(failing.shelf)?;
    Ok(shelf)
}

// Whether the translation to this second output comes to this.
fn comes_to(
    alloc: Global,
    problem_out: &str,
    failing: &Failing,
    outcome: &Outcome,
) -> Result<bool, Memory> {
    let words = translate_words(alloc, problem_out, &[])?;
    let mut shelf = failing_shelf(alloc, failing)?;
    let is_so = runs_to(alloc, &words, &mut shelf, failing, outcome);
    drop(words);
    let is_held = holds(&shelf, "od", outcome.domain) && holds(&shelf, "op", outcome.problem);
    drop(shelf);
    Ok(is_so? && is_held)
}

// The calls of the shelf are two gets and two puts, and that of the sink one write. So a fifth call of the
// shelf and a second one of the sink never come: where one came, it would fail.
#[test]
fn no_further_call(rt: HostRuntime) {
    let alloc = rt.alloc();
    let failing = Failing { shelf: 5, sink: 2 };
    let done = Outcome {
        number: 0,
        printed: REPORT,
        domain: Some(DOMAIN_OUT),
        problem: Some(PROBLEM_OUT),
    };
    assert!(rt; is_so(comes_to(alloc, "op", &failing, &done)));
    assert!(rt; is_so(comes_to(alloc, "od", &failing, &nothing(2, USAGE))));
}

// What is due where nothing is put.
fn nothing(number: u8, printed: &'static str) -> Outcome {
    Outcome {
        number,
        printed,
        domain: None,
        problem: None,
    }
}

// A read that fails leaves nothing.
#[test]
fn each_read_that_fails(rt: HostRuntime) {
    for shelf in [1, 2] {
        let failing = Failing { shelf, sink: 2 };
        assert!(rt; is_so(comes_to(rt.alloc(), "op", &failing, &nothing(5, ""))));
    }
}

// A write that fails leaves what was put before it.
#[test]
fn each_write_that_fails(rt: HostRuntime) {
    let alloc = rt.alloc();
    let cases = [
        (3, 2, None, None),
        (4, 2, Some(DOMAIN_OUT), None),
        (5, 1, Some(DOMAIN_OUT), Some(PROBLEM_OUT)),
    ];
    for (shelf, sink, domain, problem) in cases {
        let failing = Failing { shelf, sink };
        let outcome = Outcome {
            number: 6,
            printed: "",
            domain,
            problem,
        };
        assert!(rt; is_so(comes_to(alloc, "op", &failing, &outcome)));
    }
}
