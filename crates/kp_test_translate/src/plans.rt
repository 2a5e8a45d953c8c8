use crate::meaning::{find, solves};
use kp_base::Memory;
use kp_outside::{MemoryShelf, MemorySink};
use kp_run::run;
use kp_tree::{read_domain, read_problem};
use kp_tree_grammar::{Domain, Problem};
use std::alloc::Global;
use std::test::Fail;

const EXCHANGE: &str =
    "(define (domain d) (:predicates (p) (q)) (:action a :precondition (p) :effect (and (q) (not (p)))))";

const EXCHANGES_WHERE_P: &str =
    "(define (domain d) (:predicates (p) (q)) (:action a :effect (when (p) (and (q) (not (p))))))";

const ADDS_AND_DELETES: &str =
    "(define (domain d) (:predicates (p) (q)) (:action a :precondition (p) :effect (and (q) (not (q)))))";

const ADDS: &str = "(define (domain d) (:predicates (p) (q)) (:action a :effect (q)))";

const FILLS_AND_EXCHANGES: &str =
    "(define (domain d) (:predicates (p) (q)) (:action b :effect (p)) (:action a :precondition (p) :effect (and (q) (not (p)))))";

fn words(alloc: Global) -> Result<Vec<Vec<u8>>, Memory> {
    let mut words = Vec::new(alloc);
    for word in ["translate", "d", "p", "od", "op", "--mode", "k0"] {
        words.push(word.as_bytes().to_vec(alloc)?)?;
    }
    Ok(words)
}

// A shelf that holds the two files.
fn given_shelf(alloc: Global, domain: &str, problem: &str) -> Result<MemoryShelf, Memory> {
    let mut shelf = MemoryShelf::new(alloc)?;
    shelf.hold(b"d".as_slice(), domain.as_bytes())?;
    shelf.hold(b"p".as_slice(), problem.as_bytes())?;
    Ok(shelf)
}

fn translate(alloc: Global, shelf: &mut MemoryShelf) -> Result<(), Memory> {
    let words = words(alloc)?;
    let mut sink = MemorySink::new(alloc)?;
    let _status = run(alloc, &words, shelf, &mut sink);
    Ok(())
}

// The shelf after `translate` of the two files.
fn translated(alloc: Global, domain: &str, problem: &str) -> Result<MemoryShelf, Memory> {
    let mut shelf = given_shelf(alloc, domain, problem)?;
    translate(alloc, &mut shelf)?;
    Ok(shelf)
}

// The written domain and problem.
fn read_written(alloc: Global, shelf: &MemoryShelf) -> Option<(Domain, Problem)> {
    let domain = shelf.held(b"od".as_slice())?;
    let problem = shelf.held(b"op".as_slice())?;
    read(alloc, domain.slice(), problem.slice())
}

// The trees of two short files, where they have any.
fn read(alloc: Global, domain: &[u8], problem: &[u8]) -> Option<(Domain, Problem)> {
    if domain.len() > 4_096 || problem.len() > 4_096 {
        return None;
    }
    let domain = read_domain(alloc, domain).ok()?;
    let problem = read_problem(alloc, problem).ok()?;
    Some((domain, problem))
}

// What a search over the written files finds.
#[derive(Clone, Copy, PartialEq, Eq)]
enum Verdict {
    // The files weren't written, or don't read.
    NoFiles,
    NoPlan,
    // A plan of so many operators that is one of the given files, stripped.
    Plan(usize),
    // A plan that is none of the given files, stripped.
    WrongPlan,
}

// What a plan is in the given files.
fn judge_in(
    alloc: Global,
    given: &Domain,
    problem: &Problem,
    written: &Domain,
    plan: &[usize],
) -> Result<Verdict, Memory> {
    if solves(alloc, given, problem, written, plan)? {
        Ok(Verdict::Plan(plan.len()))
    } else {
        Ok(Verdict::WrongPlan)
    }
}

fn judge(
    alloc: Global,
    domain: &str,
    problem: &str,
    written: &Domain,
    plan: &[usize],
) -> Result<Verdict, Memory> {
    let files = read(alloc, domain.as_bytes(), problem.as_bytes());
    let judged = match &files {
        Some((given, problem)) => judge_in(alloc, given, problem, written, plan),
        None => Ok(Verdict::NoFiles),
    };
    drop(files);
    judged
}

// The written files, where they were written and read.
fn written_files(
    alloc: Global,
    domain: &str,
    problem: &str,
) -> Result<Option<(Domain, Problem)>, Memory> {
    let shelf = translated(alloc, domain, problem)?;
    let written = read_written(alloc, &shelf);
    drop(shelf);
    Ok(written)
}

// What a search over the written files finds, judged in the given ones.
fn found_in(
    alloc: Global,
    domain: &str,
    problem: &str,
    written: &Domain,
    written_problem: &Problem,
) -> Result<Verdict, Memory> {
    match find(alloc, written, written_problem, 4)? {
        Some(plan) => judge(alloc, domain, problem, written, &plan),
        None => Ok(Verdict::NoPlan),
    }
}

fn found(alloc: Global, domain: &str, problem: &str) -> Result<Verdict, Memory> {
    let files = written_files(alloc, domain, problem)?;
    let found = match &files {
        Some((written, goals)) => found_in(alloc, domain, problem, written, goals),
        None => Ok(Verdict::NoFiles),
    };
    drop(files);
    found
}

// Whether a search over the written files finds this.
fn finds(alloc: Global, domain: &str, problem: &str, wanted: Verdict) -> Result<bool, Memory> {
    Ok(found(alloc, domain, problem)? == wanted)
}

// Files with one initial state.
#[test]
fn plans_from_one_state(rt: HostRuntime) -> Result<(), Fail> {
    let cases = [
        (
            EXCHANGE,
            "(define (problem e) (:domain d) (:init (p)) (:goal (q)))",
            Verdict::Plan(1),
        ),
        (
            EXCHANGE,
            "(define (problem e) (:domain d) (:init (p)) (:goal (and (p) (q))))",
            Verdict::NoPlan,
        ),
        (
            EXCHANGES_WHERE_P,
            "(define (problem e) (:domain d) (:init (p)) (:goal (and (q) (not (p)))))",
            Verdict::Plan(1),
        ),
        (
            EXCHANGES_WHERE_P,
            "(define (problem e) (:domain d) (:init) (:goal (q)))",
            Verdict::NoPlan,
        ),
        (
            ADDS_AND_DELETES,
            "(define (problem e) (:domain d) (:init (p)) (:goal (q)))",
            Verdict::Plan(1),
        ),
        (
            ADDS_AND_DELETES,
            "(define (problem e) (:domain d) (:init (not (p))) (:goal (q)))",
            Verdict::NoPlan,
        ),
        (
            EXCHANGE,
            "(define (problem e) (:domain d) (:init (q)) (:goal (and)))",
            Verdict::Plan(0),
        ),
    ];
    for (domain, problem, wanted) in cases {
        assert!(rt; finds(rt.alloc(), domain, problem, wanted)?);
    }
    Ok(())
}

// Files with several initial states.
#[test]
fn plans_from_several_states(rt: HostRuntime) -> Result<(), Fail> {
    let cases = [
        (
            ADDS,
            "(define (problem e) (:domain d) (:init (unknown (p))) (:goal (q)))",
            Verdict::Plan(1),
        ),
        (
            EXCHANGE,
            "(define (problem e) (:domain d) (:init (unknown (p))) (:goal (q)))",
            Verdict::NoPlan,
        ),
        (
            EXCHANGE,
            "(define (problem e) (:domain d) (:init (or (p) (q)) (p)) (:goal (q)))",
            Verdict::Plan(1),
        ),
        // `p` holds in both initial states, though no item is `p` alone.
        (
            EXCHANGE,
            "(define (problem e) (:domain d) (:init (or (p) (q)) (or (p) (not (q)))) (:goal (q)))",
            Verdict::Plan(1),
        ),
        (
            FILLS_AND_EXCHANGES,
            "(define (problem e) (:domain d) (:init (oneof (p) (q))) (:goal (and (q) (not (p)))))",
            Verdict::Plan(2),
        ),
        // The action is a plan, but the empty tag alone doesn't tell so.
        (
            EXCHANGES_WHERE_P,
            "(define (problem e) (:domain d) (:init (oneof (p) (q))) (:goal (q)))",
            Verdict::NoPlan,
        ),
    ];
    for (domain, problem, wanted) in cases {
        assert!(rt; finds(rt.alloc(), domain, problem, wanted)?);
    }
    Ok(())
}
