//! Files of merges: what they say, and where they are refused.

use crate::given::three_atoms;
use kp_base::{Part, Place, Refused, Row, Stop};
use kp_tags_files::{FileMerge, read_merges};
use kp_test_problems::{Sign, are_sets, is_literal};
use std::alloc::Global;

// The merges of a file that isn't long, on three atoms.
fn read(alloc: Global, file: &str) -> Result<Row<FileMerge>, Stop> {
    if file.len() > 1000 {
        return Err(Stop::Memory);
    }
    let ground = three_atoms(alloc)?;
    read_merges(alloc, file.as_bytes(), &ground)
}

// Whether the file has one merge, with this target and these tags.
fn is_merge(alloc: Global, file: &str, target: Sign, tags: &[&[Sign]]) -> bool {
    match read(alloc, file) {
        Ok(merges) => {
            merges.len() == 1
                && merges.slice().iter().all(|merge| {
                    is_literal(merge.target, target) && are_sets(merge.tags.slice(), tags)
                })
        }
        Err(_) => false,
    }
}

// Whether the file has this many merges.
fn has_merges(alloc: Global, file: &str, count: usize) -> bool {
    match read(alloc, file) {
        Ok(merges) => merges.len() == count,
        Err(_) => false,
    }
}

// The place of a byte of a file of merges.
fn at(line: u32, byte: u32) -> Place {
    Place {
        part: Part::Merges,
        line,
        byte,
    }
}

// Whether the file is refused at this place, for the token there.
fn is_refused(alloc: Global, file: &str, line: u32, byte: u32) -> bool {
    match read(alloc, file) {
        Err(Stop::Refused(Refused::MergeSyntax(place))) => place == at(line, byte),
        _ => false,
    }
}

// Whether the file is refused at this place, where no token begins.
fn is_bad(alloc: Global, file: &str, line: u32, byte: u32) -> bool {
    match read(alloc, file) {
        Err(Stop::Refused(Refused::BadToken(place))) => place == at(line, byte),
        _ => false,
    }
}

// Of no tag or one; in upper case, and with a comment and no blank that it could do without.
#[test]
fn one_merge(rt: HostRuntime) {
    let table: [(&str, Sign, &[&[Sign]]); 4] = [
        ("(merge (x1))", (0, true), &[]),
        ("(merge (x1) ())", (0, true), &[&[]]),
        ("(MERGE (X2) ((AT B)))", (1, true), &[&[(2, true)]]),
        (
            "; a merge\n(merge(at b)((not(x1))))\n",
            (2, true),
            &[&[(0, false)]],
        ),
    ];
    for (file, target, tags) in table {
        assert!(rt; is_merge(rt.alloc(), file, target, tags), "{file}");
    }
}

// A tag is a set of literals, which may exclude each other; a tag may stand twice.
#[test]
fn tags_of_a_merge(rt: HostRuntime) {
    let table: [(&str, Sign, &[&[Sign]]); 4] = [
        (
            "(merge (not (x2)) ((x1)) ())",
            (1, false),
            &[&[(0, true)], &[]],
        ),
        (
            "(merge (x1) ((x1) (not (x1))))",
            (0, true),
            &[&[(0, true), (0, false)]],
        ),
        (
            "(merge (x1) ((at b) (x2) (at b)))",
            (0, true),
            &[&[(1, true), (2, true)]],
        ),
        (
            "(merge (x1) ((x2)) ((x2)))",
            (0, true),
            &[&[(1, true)], &[(1, true)]],
        ),
    ];
    for (file, target, tags) in table {
        assert!(rt; is_merge(rt.alloc(), file, target, tags), "{file}");
    }
}

#[test]
fn numbers_of_merges(rt: HostRuntime) {
    for (file, count) in [("", 0), ("; none", 0), ("(merge (x1)) (merge (x1) ())", 2)] {
        assert!(rt; has_merges(rt.alloc(), file, count), "{file}");
    }
}

#[test]
fn atoms_that_are_none(rt: HostRuntime) {
    for (file, line, byte) in [
        ("(merge (x9))", 1, 8),
        ("(merge (x1 b))", 1, 8),
        ("(merge (merge))", 1, 8),
        ("(merge (not (x9) x))", 1, 13),
        ("(merge (x1)\n ((x2) (at c)))", 2, 20),
        ("(merge (x1) ((x9)) (", 1, 14),
    ] {
        assert!(rt; is_refused(rt.alloc(), file, line, byte), "{file}");
    }
}

#[test]
fn tokens_that_are_wrong(rt: HostRuntime) {
    for (file, line, byte) in [
        ("(merge", 1, 6),
        ("(merge)", 1, 6),
        ("(join (x1))", 1, 1),
        ("(merge (x1)\n (x2))", 2, 14),
        ("(merge (x1)) x", 1, 13),
        ("(merge (x1) ((and (x1))))", 1, 14),
        ("(merge (x9 (x1)))", 1, 11),
    ] {
        assert!(rt; is_refused(rt.alloc(), file, line, byte), "{file}");
    }
}

#[test]
fn bytes_that_begin_no_token(rt: HostRuntime) {
    assert!(rt; is_bad(rt.alloc(), "(merge (x9))\n_", 2, 13));
}
