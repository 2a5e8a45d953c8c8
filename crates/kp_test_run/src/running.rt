use kp_base::Memory;
use kp_outside::{MemoryShelf, MemorySink};
use kp_run::run;
use std::alloc::Global;

pub const DOMAIN: &str =
    "(define (domain d) (:predicates (p) (q)) (:action a :precondition (p) :effect (and (q) (not (p)))))";

pub const CELLS: &str =
    "(define (domain cells) (:predicates (x1) (x2) (x3)) (:action left :effect (and (when (x3) (and (x2) (not (x3)))) (when (x2) (and (x1) (not (x2)))))))";

pub const ONE_IS_FULL: &str =
    "(define (problem c) (:domain cells) (:init (oneof (x1) (x2) (x3))) (:goal (x1)))";

pub const PROBLEM: &str = "(define (problem e) (:domain d) (:init (p)) (:goal (q)))";

pub const USAGE: &str =
    "usage: kplan translate D P OD OP [--mode M | --merges F] [--implicates N]\n       kplan solve D P [--mode M | --merges F] [--implicates N] [--budget N] [--classical F]\n       kplan classical D P [--budget N]\n       kplan strip T\n       kplan lift D P PLAN [--mode M | --merges F] [--implicates N]\n       kplan check D P PLAN [--implicates N]\n       kplan width D P [--bound N] [--implicates N]\n       kplan merges D P [--mode M] [--implicates N]\n       kplan bench FAMILY N [--mode M] [--budget N]\n";

fn push_all(alloc: Global, words: &mut Vec<Vec<u8>>, more: &[&str]) -> Result<(), Memory> {
    for word in more {
        words.push(word.as_bytes().to_vec(alloc)?)?;
    }
    Ok(())
}

/// These words, with more behind them.
pub fn words_of(alloc: Global, front: &[&str], more: &[&str]) -> Result<Vec<Vec<u8>>, Memory> {
    let mut words = Vec::new(alloc);
    push_all(alloc, &mut words, front)?;
    push_all(alloc, &mut words, more)?;
    Ok(words)
}

/// The words of a translation to `od` and this name, with these behind them.
pub fn translate_words(
    alloc: Global,
    problem_out: &str,
    more: &[&str],
) -> Result<Vec<Vec<u8>>, Memory> {
    let front = ["translate", "d", "p", "od", problem_out, "--mode", "k0"];
    words_of(alloc, front.as_slice(), more)
}

/// A shelf that holds this domain and problem.
pub fn shelf_of(alloc: Global, domain: &[u8], problem: &[u8]) -> Result<MemoryShelf, Memory> {
    let mut shelf = MemoryShelf::new(alloc)?;
    shelf.hold(b"d".as_slice(), domain)?;
    shelf.hold(b"p".as_slice(), problem)?;
    Ok(shelf)
}

// A shelf that holds this domain and problem, and one more content under a name.
fn shelf_with(
    alloc: Global,
    texts: (&str, &str),
    name: &[u8],
    content: &str,
) -> Result<MemoryShelf, Memory> {
    let mut shelf = shelf_of(alloc, texts.0.as_bytes(), texts.1.as_bytes())?;
    shelf.hold(name, content.as_bytes())?;
    Ok(shelf)
}

/// Whether the shelf holds this text under the name, or nothing where there is none.
pub fn holds(shelf: &MemoryShelf, name: &str, text: Option<&str>) -> bool {
    match (shelf.held(name.as_bytes()), text) {
        (Some(content), Some(text)) => content.slice() == text.as_bytes(),
        (None, None) => true,
        _ => false,
    }
}

/// Whether what was asked was answered with yes.
pub fn is_so(answer: Result<bool, Memory>) -> bool {
    matches!(answer, Ok(true))
}

// Whether these words end with this number and print this text.
fn runs_so(
    alloc: Global,
    words: &[Vec<u8>],
    shelf: &mut MemoryShelf,
    number: u8,
    printed: &str,
) -> Result<bool, Memory> {
    let mut sink = MemorySink::new(alloc)?;
    let status = run(alloc, words, shelf, &mut sink);
    Ok(status.number() == number && sink.bytes().slice() == printed.as_bytes())
}

/// Whether a translation with these last words ends with this number and prints this text.
pub fn ends_so(
    alloc: Global,
    texts: (&str, &str),
    more: &[&str],
    number: u8,
    printed: &str,
) -> Result<bool, Memory> {
    let words = translate_words(alloc, "op", more)?;
    let mut shelf = shelf_of(alloc, texts.0.as_bytes(), texts.1.as_bytes())?;
    runs_so(alloc, &words, &mut shelf, number, printed)
}

/// Whether these words on two files end with this number and print this text.
pub fn says_so(
    alloc: Global,
    texts: (&str, &str),
    said: &[&str],
    number: u8,
    printed: &str,
) -> Result<bool, Memory> {
    let words = words_of(alloc, said, &[])?;
    let mut shelf = shelf_of(alloc, texts.0.as_bytes(), texts.1.as_bytes())?;
    runs_so(alloc, &words, &mut shelf, number, printed)
}

/// Whether the two files are refused so, with nothing put.
pub fn refuses(
    alloc: Global,
    domain: &[u8],
    problem: &[u8],
    printed: &str,
) -> Result<bool, Memory> {
    let words = translate_words(alloc, "op", &[])?;
    let mut shelf = shelf_of(alloc, domain, problem)?;
    let is_so = runs_so(alloc, &words, &mut shelf, 3, printed);
    drop(words);
    let is_bare = shelf.held(b"od".as_slice()).is_none() && shelf.held(b"op".as_slice()).is_none();
    drop(shelf);
    Ok(is_so? && is_bare)
}

/// Whether words with a byte that no character has are answered with the usage.
pub fn is_usage_of_bytes(alloc: Global) -> Result<bool, Memory> {
    let mut words = words_of(alloc, ["strip"].as_slice(), &[])?;
    words.push(b"t\xff".as_slice().to_vec(alloc)?)?;
    let mut shelf = MemoryShelf::new(alloc)?;
    runs_so(alloc, &words, &mut shelf, 2, USAGE)
}

/// Whether stripping this plan file ends with this number and prints this text.
pub fn strips_so(alloc: Global, plan: &str, number: u8, printed: &str) -> Result<bool, Memory> {
    let mut words = Vec::new(alloc);
    push_all(alloc, &mut words, ["strip", "t"].as_slice())?;
    let mut shelf = MemoryShelf::new(alloc)?;
    shelf.hold(b"t".as_slice(), plan.as_bytes())?;
    runs_so(alloc, &words, &mut shelf, number, printed)
}

/// Whether a translation with this file of merges ends with this number and prints this text, and puts files just with 0.
pub fn merges_so(
    alloc: Global,
    texts: (&str, &str),
    merges: &str,
    number: u8,
    printed: &str,
) -> Result<bool, Memory> {
    let named = ["translate", "d", "p", "od", "op", "--merges", "m"];
    let words = words_of(alloc, named.as_slice(), &[])?;
    let mut shelf = shelf_with(alloc, texts, b"m".as_slice(), merges)?;
    let is_so = runs_so(alloc, &words, &mut shelf, number, printed);
    drop(words);
    let is_put = shelf.held(b"od".as_slice()).is_some() && shelf.held(b"op".as_slice()).is_some();
    drop(shelf);
    Ok(is_so? && is_put == (number == 0))
}

/// Whether a check of this plan file ends with this number and prints this text.
pub fn checks_so(
    alloc: Global,
    texts: (&str, &str),
    plan: &str,
    number: u8,
    printed: &str,
) -> Result<bool, Memory> {
    let words = words_of(alloc, ["check", "d", "p", "t"].as_slice(), &[])?;
    let mut shelf = shelf_with(alloc, texts, b"t".as_slice(), plan)?;
    runs_so(alloc, &words, &mut shelf, number, printed)
}

/// Whether a lift of this plan file, with these last words and a file of merges that has a tag for each cell, ends with
/// this number and prints this text.
pub fn lifts_so(
    alloc: Global,
    texts: (&str, &str),
    plan: &str,
    more: &[&str],
    number: u8,
    printed: &str,
) -> Result<bool, Memory> {
    let words = words_of(alloc, ["lift", "d", "p", "t"].as_slice(), more)?;
    let mut shelf = shelf_with(alloc, texts, b"t".as_slice(), plan)?;
    shelf.hold(
        b"m".as_slice(),
        b"(merge (x1) ((x1)) ((x2)) ((x3)))".as_slice(),
    )?;
    runs_so(alloc, &words, &mut shelf, number, printed)
}

/// Whether a call to solve that puts its whole plan under a name prints this text and puts this content, or none.
pub fn solves_so(
    alloc: Global,
    texts: (&str, &str),
    printed: &str,
    put: Option<&str>,
) -> Result<bool, Memory> {
    let named = ["solve", "d", "p", "--classical", "f"];
    let words = words_of(alloc, named.as_slice(), &[])?;
    let mut shelf = shelf_of(alloc, texts.0.as_bytes(), texts.1.as_bytes())?;
    let number = if put.is_some() { 0 } else { 1 };
    let is_so = runs_so(alloc, &words, &mut shelf, number, printed);
    drop(words);
    let is_put = holds(&shelf, "f", put);
    drop(shelf);
    Ok(is_so? && is_put)
}
