use kp_base::{AtomId, Lit, LitSet, Memory};
use kp_clauses::{Added, Store, has_lit, resolvent, subsumes};
use kp_test_problems::{Sign, are_literals, set};
use std::alloc::Global;
use std::test::Fail;

// The atoms a, b and c are 0, 1 and 2.

// Whether a resolvent is this one, or none where none is wanted.
fn is_wanted(found: Option<LitSet>, wanted: Option<&[Sign]>) -> bool {
    match found {
        Some(found) => match wanted {
            Some(lits) => are_literals(found.slice(), lits),
            None => false,
        },
        None => wanted.is_none(),
    }
}

// Whether the resolvent on a is this one.
fn is_resolvent(
    alloc: Global,
    c: &LitSet,
    d: &LitSet,
    wanted: Option<&[Sign]>,
) -> Result<bool, Memory> {
    let a = Lit {
        atom: AtomId(0),
        positive: true,
    };
    if !has_lit(c, a) || !has_lit(d, a.negated()) {
        return Ok(false);
    }
    let found = resolvent(alloc, c, d, a.atom)?;
    Ok(is_wanted(found, wanted))
}

// Whether a or b and another clause have this resolvent on a.
fn resolves_to(alloc: Global, other: &[Sign], wanted: Option<&[Sign]>) -> Result<bool, Memory> {
    let either = set(alloc, &[(0, true), (1, true)])?;
    let other = set(alloc, other)?;
    is_resolvent(alloc, &either, &other, wanted)
}

#[test]
fn resolves_on_an_atom(rt: HostRuntime) -> Result<(), Fail> {
    let wanted = [(1, true), (2, true)];
    assert!(rt;
        resolves_to(
            rt.alloc(),
            &[(0, false), (2, true)],
            Some(wanted.as_slice())
        )?
    );
    Ok(())
}

#[test]
fn tells_no_tautology(rt: HostRuntime) -> Result<(), Fail> {
    assert!(rt; resolves_to(rt.alloc(), &[(0, false), (1, false)], None)?);
    Ok(())
}

// Whether a clause that is added is kept.
fn is_kept(alloc: Global, store: &mut Store, lits: &[Sign]) -> Result<bool, Memory> {
    let clause = set(alloc, lits)?;
    let added = store.add(clause)?;
    Ok(added == Added::Kept)
}

// Whether the store has this clause alone.
fn has_just(store: &Store, held: &LitSet) -> bool {
    let clauses = store.clauses().slice();
    clauses.len() == 1
        && clauses
            .iter()
            .all(|c| subsumes(c, held) && subsumes(held, c))
}

// Whether a clause that holds another isn't kept, and goes when the other comes.
fn keeps_the_shortest(alloc: Global, store: &mut Store) -> Result<bool, Memory> {
    let either = is_kept(alloc, store, &[(0, true), (1, true)])?;
    let any = is_kept(alloc, store, &[(0, true), (1, true), (2, true)])?;
    let first = is_kept(alloc, store, &[(0, true)])?;
    let held = set(alloc, &[(0, true)])?;
    Ok(either && !any && first && has_just(store, &held))
}

#[test]
fn keeps_what_says_most(rt: HostRuntime) -> Result<(), Fail> {
    let mut store = Store::new(rt.alloc());
    let keeps = keeps_the_shortest(rt.alloc(), &mut store);
    drop(store);
    assert!(rt; keeps?);
    Ok(())
}

fn stored(alloc: Global, clauses: &[&[Sign]]) -> Result<Store, Memory> {
    let mut store = Store::new(alloc);
    for lits in clauses {
        store.add(set(alloc, lits)?)?;
    }
    Ok(store)
}

// What is needed of a clause, where these clauses are stored.
fn needed(alloc: Global, clauses: &[&[Sign]], c: &[Sign]) -> Result<LitSet, Memory> {
    let store = stored(alloc, clauses)?;
    let c = set(alloc, c)?;
    let needed = store.needed(&c);
    drop(store);
    needed
}

// Whether just these literals of a clause are needed, where these clauses are stored.
fn needs(alloc: Global, clauses: &[&[Sign]], c: &[Sign], wanted: &[Sign]) -> Result<bool, Memory> {
    let needed = needed(alloc, clauses, c)?;
    let wanted = set(alloc, wanted)?;
    Ok(needed == wanted)
}

#[test]
fn tells_what_is_needed(rt: HostRuntime) -> Result<(), Fail> {
    let a_or_b = &[(0, true), (1, true)];
    let a_or_c = &[(0, true), (2, true)];
    let b_or_c = &[(1, true), (2, true)];
    let any = &[(0, true), (1, true), (2, true)];
    assert!(rt; needs(rt.alloc(), &[a_or_b, a_or_c], any, &[(0, true)])?);
    assert!(rt; needs(rt.alloc(), &[a_or_b, a_or_c, b_or_c], any, &[])?);
    assert!(rt; needs(rt.alloc(), &[a_or_b, a_or_c], b_or_c, b_or_c)?);
    Ok(())
}
