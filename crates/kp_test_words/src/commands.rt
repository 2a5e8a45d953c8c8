//! Words that are a command.

use crate::words::{is, is_file, is_k0, is_k1, told};
use kp_base::Text;
use kp_words::{Command, Family, Source};
use std::alloc::Global;

// Whether two files are those of a translation.
fn are_given(domain: &Text, problem: &Text) -> bool {
    is(domain, "D") && is(problem, "P")
}

// Whether two files are those that it writes.
fn are_written(domain: &Text, problem: &Text) -> bool {
    is(domain, "OD") && is(problem, "OP")
}

// Whether merges come from the first mode.
fn is_first(source: &Source) -> bool {
    match source {
        Source::Mode(mode) => is_k0(*mode),
        Source::File(_) => false,
    }
}

// Whether it is the translation in the first mode, with this limit.
fn is_translation(command: &Command, wanted: u32) -> bool {
    match command {
        Command::Translate {
            domain,
            problem,
            to_domain,
            to_problem,
            source,
            implicates,
        } => {
            are_given(domain, problem)
                && are_written(to_domain, to_problem)
                && is_first(source)
                && *implicates == wanted
        }
        _ => false,
    }
}

fn translates(alloc: Global, all: &[&str], implicates: u32) -> bool {
    let Ok(command) = told(alloc, all) else {
        return false;
    };
    let is = is_translation(&command, implicates);
    drop(command);
    is
}

#[test]
fn translations(rt: HostRuntime) {
    let alloc = rt.alloc();
    assert!(rt;
        translates(
            alloc,
            &["translate", "--mode=k0", "D", "P", "OD", "OP"],
            20_000
        )
    );
    assert!(rt;
        translates(
            alloc,
            &[
                "translate",
                "D",
                "--implicates",
                "7",
                "P",
                "OD",
                "--mode",
                "k0",
                "OP"
            ],
            7
        )
    );
    assert!(rt;
        translates(
            alloc,
            &[
                "translate",
                "D",
                "P",
                "OD",
                "OP",
                "--implicates=100000",
                "--mode=k0"
            ],
            100_000
        )
    );
}

// Whether it is a lift with this file of merges.
fn is_lift(command: &Command, merges: &str) -> bool {
    match command {
        Command::Lift { plan, source, .. } => is_file(source, merges) && is(plan, "L"),
        _ => false,
    }
}

fn lifts(alloc: Global, all: &[&str], merges: &str) -> bool {
    let Ok(command) = told(alloc, all) else {
        return false;
    };
    let is = is_lift(&command, merges);
    drop(command);
    is
}

// Whether a name is given, and is this one.
fn is_given(name: &Option<Text>, wanted: &str) -> bool {
    match name {
        Some(name) => is(name, wanted),
        None => false,
    }
}

// Whether it is a call to solve, with this budget and this file for the classical plan.
fn is_solve(command: &Command, wanted: u32, name: &str) -> bool {
    match command {
        Command::Solve {
            budget,
            classical,
            ..
        } => is_given(classical, name) && *budget == wanted,
        _ => false,
    }
}

fn solves(alloc: Global, all: &[&str], budget: u32, classical: &str) -> bool {
    let Ok(command) = told(alloc, all) else {
        return false;
    };
    let is = is_solve(&command, budget, classical);
    drop(command);
    is
}

#[test]
fn values(rt: HostRuntime) {
    let alloc = rt.alloc();
    assert!(rt; lifts(alloc, &["lift", "--merges=a=b", "D", "P", "L"], "a=b"));
    assert!(rt; lifts(alloc, &["lift", "D", "P", "L", "--merges", "M"], "M"));
    assert!(rt;
        solves(
            alloc,
            &["solve", "D", "P", "--classical", "C", "--budget=1"],
            1,
            "C"
        )
    );
}

// Whether it is a call for the width, with this bound.
fn is_width(command: &Command, wanted: u32) -> bool {
    match command {
        Command::Width {
            bound,
            implicates,
            ..
        } => *bound == wanted && *implicates == 20_000,
        _ => false,
    }
}

fn asks_width(alloc: Global, all: &[&str], bound: u32) -> bool {
    let Ok(command) = told(alloc, all) else {
        return false;
    };
    let is = is_width(&command, bound);
    drop(command);
    is
}

// Whether it is a run on bombs of this size, with nothing else said.
fn is_bench(command: &Command, size: u32) -> bool {
    match command {
        Command::Bench {
            family,
            n,
            mode,
            budget,
        } => { matches!(family, Family::Bombs) && *n == size && is_k1(*mode) && *budget == 10_000 }
        _ => false,
    }
}

fn benches(alloc: Global, all: &[&str], n: u32) -> bool {
    let Ok(command) = told(alloc, all) else {
        return false;
    };
    let is = is_bench(&command, n);
    drop(command);
    is
}

#[test]
fn numbers(rt: HostRuntime) {
    let alloc = rt.alloc();
    assert!(rt; asks_width(alloc, &["width", "D", "P"], 3));
    assert!(rt; asks_width(alloc, &["width", "--bound", "0", "D", "P"], 0));
    assert!(rt; benches(alloc, &["bench", "bombs", "100"], 100));
}

// Whether it is one of the commands without a test of their own here.
fn is_without(command: &Command) -> bool {
    match command {
        Command::Strip { plan } => is(plan, "T"),
        Command::Check { plan, .. } => is(plan, "L"),
        Command::Classical { budget, .. } => *budget == 10_000,
        Command::Merges { mode, .. } => is_k1(*mode),
        _ => false,
    }
}

fn is_other(alloc: Global, all: &[&str]) -> bool {
    let Ok(command) = told(alloc, all) else {
        return false;
    };
    let is = is_without(&command);
    drop(command);
    is
}

#[test]
fn others(rt: HostRuntime) {
    let alloc = rt.alloc();
    assert!(rt; is_other(alloc, &["strip", "T"]) && is_other(alloc, &["check", "D", "P", "L"]));
    assert!(rt;
        is_other(alloc, &["classical", "D", "P"]) && is_other(alloc, &["merges", "D", "P"])
    );
}
