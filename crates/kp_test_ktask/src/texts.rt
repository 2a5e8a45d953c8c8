//! Texts of tasks.

use crate::given::{cells, exchange, one_tag, tag_for_each};
use kp_base::{Limits, Row, Stop};
use kp_ktask_texts::translation_with;
use std::alloc::Global;
use std::test::Fail;

// Whether the bytes stand in the text somewhere.
fn has(text: &Row<u8>, bytes: &[u8]) -> bool {
    let text = text.slice();
    for from in 0..text.len() {
        if text[from..].starts_with(bytes) {
            return true;
        }
    }
    false
}

fn domain_is(alloc: Global, expected: &[u8]) -> Result<bool, Stop> {
    let ground = exchange(alloc)?;
    let table = one_tag(alloc)?;
    let texts = translation_with(alloc, &ground, &table, &Limits::usual());
    drop(table);
    drop(ground);
    let texts = texts?;
    Ok(texts.domain.slice() == expected)
}

fn problem_is(alloc: Global, expected: &[u8]) -> Result<bool, Stop> {
    let ground = exchange(alloc)?;
    let table = one_tag(alloc)?;
    let texts = translation_with(alloc, &ground, &table, &Limits::usual());
    drop(table);
    drop(ground);
    let texts = texts?;
    Ok(texts.problem.slice() == expected)
}

fn tagged_has(alloc: Global, bytes: &[u8]) -> Result<bool, Stop> {
    let ground = cells(alloc)?;
    let table = tag_for_each(alloc)?;
    let texts = translation_with(alloc, &ground, &table, &Limits::usual());
    drop(table);
    drop(ground);
    let texts = texts?;
    Ok(has(&texts.domain, bytes))
}

#[test]
fn the_empty_tag_alone(rt: HostRuntime) -> Result<(), Fail> {
    assert!(rt;
        matches!(
            domain_is(
                rt.alloc(),
                b"(define (domain kplan)\n(:requirements :strips :negative-preconditions :conditional-effects)\n(:predicates\n(kp_-p_-0)\n(kn_-p_-0)\n(kp_-q_-0)\n(kn_-q_-0)\n)\n(:action do_-a\n:parameters ()\n:precondition (and (kp_-p_-0))\n:effect (and\n(kp_-q_-0)\n(not (kn_-q_-0))\n(kn_-p_-0)\n(not (kp_-p_-0))\n)\n)\n)\n"
            ),
            Ok(true)
        )
    );
    assert!(rt;
        matches!(
            problem_is(
                rt.alloc(),
                b"(define (problem kplan)\n(:domain kplan)\n(:init\n(kp_-p_-0)\n(kn_-q_-0)\n)\n(:goal (and\n(kp_-q_-0)\n))\n)\n"
            ),
            Ok(true)
        )
    );
    Ok(())
}

#[test]
fn tags_and_a_merge(rt: HostRuntime) -> Result<(), Fail> {
    assert!(rt;
        matches!(
            tagged_has(
                rt.alloc(),
                b"(when (and (kp_-x3_-0)) (kp_-x2_-0))\n(when (and (not (kn_-x3_-0))) (not (kn_-x2_-0)))\n"
            ),
            Ok(true)
        )
    );
    assert!(rt;
        matches!(
            tagged_has(
                rt.alloc(),
                b"(:action merge_-0\n:parameters ()\n:precondition (and (kp_-x1_-1) (kp_-x1_-2) (kp_-x1_-3))\n:effect (and\n(kp_-x1_-0)\n)\n)\n"
            ),
            Ok(true)
        )
    );
    Ok(())
}
