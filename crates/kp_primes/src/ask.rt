ghost use Rattle.std.specs.Prelude.{◌≡◌, ◌||◌, fold, OnOk};
ghost use Rattle.std.specs.List.{list_any};
ghost use Rattle.kp_primes.specs.Asked.{denied, denied_but, entailed_by, first_left, with_left, with_below};

use kp_base::{Lit, LitSet, Memory};
use kp_clauses::{has_lit, is_tautology};
use std::alloc::Global;

/// Whether each literal's negation is in the tag.
pub fn is_denied(tag: &LitSet, c: &LitSet) -> bool
    ensures { result ≡ denied tag.now c.now }
{
    c.slice().iter().all(|x| has_lit(tag, x.negated()))
}

// Whether each literal's negation is in the tag, but for one literal.
fn is_denied_but(tag: &LitSet, lit: Lit, c: &LitSet) -> bool
    ensures { result ≡ denied_but tag.now lit c.now }
{
    c.slice()
        .iter()
        .all(|x| has_lit(tag, x.negated()) || *x == lit)
}

// Whether the tag leaves some clause nothing but the literal.
fn some_denied_but(clauses: &[LitSet], tag: &LitSet, lit: Lit) -> bool
    ensures { result ≡ list_any (denied_but tag.now lit) clauses.now }
{
    clauses.iter().any(|c| is_denied_but(tag, lit, c))
}

/// Whether a tag and prime implicates entail a literal.
pub fn is_entailed(clauses: &[LitSet], tag: &LitSet, lit: Lit) -> bool
    ensures { result ≡ entailed_by clauses.now tag.now lit }
{
    is_tautology(tag) || has_lit(tag, lit) || some_denied_but(clauses, tag, lit)
}

// The first literal of a clause that the tag doesn't deny.
fn first_left(tag: &LitSet, c: &[Lit]) -> Option<Lit>
    ensures { result ≡ first_left tag.now c.now }
{
    for x in c {
        if !has_lit(tag, x.negated()) {
            return Some(*x);
        }
    }
    None
}

/// Adds what the tag leaves of a clause, if that is one literal.
pub fn add_left(set: &mut LitSet, tag: &LitSet, c: &LitSet) -> Result<(), Memory>
    ensures { OnOk result (set.new ≡ with_left tag.now set.old c.now) }
{
    match first_left(tag, c.slice()) {
        Some(l) => {
            if is_denied_but(tag, l, c) {
                set.insert(l)?;
            }
            Ok(())
        }
        None => Ok(()),
    }
}

/// Adds what the tag leaves of each clause, where that is one literal.
pub fn add_all_left(set: &mut LitSet, clauses: &[LitSet], tag: &LitSet) -> Result<(), Memory>
    ensures { OnOk result (set.new ≡ fold (with_left tag.now) set.old clauses.now) }
{
    for c in clauses {
        add_left(set, tag, c)?;
    }
    Ok(())
}

/// Adds those literals that are of the first atoms.
pub fn add_below(set: &mut LitSet, lits: &[Lit], atoms: u32) -> Result<(), Memory>
    ensures { OnOk result (set.new ≡ fold (with_below atoms) set.old lits.now) }
{
    for l in lits {
        if l.atom.0 < atoms {
            set.insert(*l)?;
        }
    }
    Ok(())
}
