//! The candidate clauses that are relevant to a literal.
ghost use Rattle.std.specs.Prelude.{◌≡◌, ◌++◌, ◌∷◌, [], List, filter, OnOk, IfOk};
ghost use Rattle.std.specs.List.{list_any, range_with_len};
ghost use Rattle.std.specs.List.Sorted.{IsPermutation, IsSorted};
ghost use Rattle.kp_base.specs.declared.lit.Lit.{Lit as Literal};
ghost use Rattle.kp_base.specs.Planning.{negated, with_lit, lits_cmp, IsClosure, either_value};
ghost use Rattle.kp_base.specs.Lit.{has};
ghost use Rattle.kp_primes.specs.Held.{formula};
ghost use Rattle.kp_relevance.specs.Gathered.{are_paired, is_wanted, is_unsettled, unsettled_below};

use crate::Relevance;
use kp_base::{AtomId, Lit, LitSet, Memory, Row};
use kp_primes::Primes;
use std::alloc::Global;

// Whether each literal of a clause is relevant to the target.
fn are_relevant(relevance: &Relevance, clause: &[Lit], target: Lit) -> bool
    ensures { result ≡ are_paired relevance.now target clause.now }
{
    clause.iter().all(|l| relevance.relevant(*l, target))
}

fn is_wanted(relevance: &Relevance, clause: &LitSet, target: Lit) -> bool
    ensures { result ≡ is_wanted relevance.now target clause.now }
{
    let lits = clause.slice();
    lits.len() > 1 && are_relevant(relevance, lits, target)
}

// Adds a clause, if it is wanted.
fn add_if_wanted(
    alloc: Global,
    relevance: &Relevance,
    clause: &LitSet,
    target: Lit,
    found: &mut Row<LitSet>,
) -> Result<(), Memory>
    ensures { OnOk result (found.new ≡ found.old ++ filter (is_wanted relevance.now target) (clause.now ∷ [])) }
{
    if is_wanted(relevance, clause, target) {
        found.push(clause.copy(alloc)?)?;
    }
    Ok(())
}

/// Adds the clauses of more than one literal each of whose literals is relevant to the target.
pub(crate) fn add_wanted(
    alloc: Global,
    relevance: &Relevance,
    clauses: &[LitSet],
    target: Lit,
    found: &mut Row<LitSet>,
) -> Result<(), Memory>
    ensures { OnOk result (found.new ≡ found.old ++ filter (is_wanted relevance.now target) clauses.now) }
{
    for clause in clauses {
        add_if_wanted(alloc, relevance, clause, target, found)?;
    }
    Ok(())
}

// The literals that are true in each initial state, of which there is one.
fn known_at_start(alloc: Global, primes: &Primes) -> Result<LitSet, Memory>
    ensures { IfOk result (IsClosure primes.now.atoms (formula primes.now) []) }
{
    let _clauses = primes.clauses();
    let empty = LitSet::new(alloc);
    let closed = primes.closure(alloc, &empty);
    drop(empty);
    match closed? {
        Some(known) => Ok(known),
        None => Ok(LitSet::new(alloc)),
    }
}

// Whether each literal is relevant to the target, and none is known.
fn is_unsettled(relevance: &Relevance, known: &LitSet, target: Lit, clause: &[Lit]) -> bool
    ensures { result ≡ is_unsettled relevance.now known.now target clause.now }
{
    are_relevant(relevance, clause, target) && !has_known(known, clause)
}

// Whether some literal is known.
fn has_known(known: &LitSet, clause: &[Lit]) -> bool
    ensures { result ≡ list_any (has known.now) clause.now }
{
    clause.iter().any(|l| known.has(*l))
}

// Adds a literal and its negation.
fn insert_both(set: &mut LitSet, lit: Lit) -> Result<(), Memory>
    ensures { OnOk result (set.new ≡ with_lit (negated lit) (with_lit lit set.old)) }
{
    set.insert(lit)?;
    set.insert(lit.negated())?;
    Ok(())
}

/// That an atom or its negation is true, as a clause.
pub fn either_value(alloc: Global, atom: AtomId) -> Result<LitSet, Memory>
    ensures { IfOk result (λ clause. clause ≡ either_value atom.0) }
{
    let lit = Lit {
        atom,
        positive: true,
    };
    let mut both = LitSet::new(alloc);
    insert_both(&mut both, lit)?;
    Ok(both)
}

// Adds that an atom or its negation is true, if that is unsettled.
fn add_if_unsettled(
    alloc: Global,
    relevance: &Relevance,
    known: &LitSet,
    target: Lit,
    atom: AtomId,
    found: &mut Row<LitSet>,
) -> Result<(), Memory>
    ensures { OnOk result (found.new ≡ found.old ++ filter (is_unsettled relevance.now known.now target) (either_value atom.0 ∷ [])) }
{
    let lit = Lit {
        atom,
        positive: true,
    };
    if is_unsettled(relevance, known, target, &[lit, lit.negated()]) {
        found.push(either_value(alloc, atom)?)?;
    }
    Ok(())
}

// Adds for each atom that it or its negation is true, where both literals are relevant to the target and none is known.
fn add_unsettled(
    alloc: Global,
    relevance: &Relevance,
    known: &LitSet,
    target: Lit,
    atoms: u32,
    found: &mut Row<LitSet>,
) -> Result<(), Memory>
    ensures { OnOk result (found.new ≡ found.old ++ unsettled_below relevance.now known.now target atoms) }
{
    for p in 0..atoms {
        add_if_unsettled(alloc, relevance, known, target, AtomId(p), found)?;
    }
    Ok(())
}

// Whether an atom and its negation are both relevant to the target.
fn is_split(relevance: &Relevance, target: Lit, atom: AtomId) -> bool
    ensures { result ≡ are_paired relevance.now target (either_value atom.0) }
{
    let lit = Lit {
        atom,
        positive: true,
    };
    are_relevant(relevance, &[lit, lit.negated()], target)
}

// Whether that is so of some atom.
fn is_some_split(relevance: &Relevance, target: Lit, atoms: u32) -> bool
    ensures { result ≡ list_any (λ p. are_paired relevance.now target (either_value p)) (range_with_len 0 atoms) }
{
    (0..atoms).any(|p| is_split(relevance, target, AtomId(p)))
}

// The same, where it is so of some atom.
fn add_split(
    alloc: Global,
    relevance: &Relevance,
    primes: &Primes,
    target: Lit,
    found: &mut Row<LitSet>,
) -> Result<(), Memory>
    ensures { OnOk result ((known : List Literal) × IsClosure primes.now.atoms (formula primes.now) [] known × (found.new ≡ found.old ++ unsettled_below relevance.now known target primes.now.atoms)) }
{
    let known = known_at_start(alloc, primes)?;
    add_unsettled(alloc, relevance, &known, target, primes.atoms(), found)?;
    Ok(())
}

/// Adds for each atom in which initial states differ that it or its negation is true, where both literals are relevant
/// to the target.
pub(crate) fn add_differing(
    alloc: Global,
    relevance: &Relevance,
    primes: &Primes,
    target: Lit,
    found: &mut Row<LitSet>,
) -> Result<(), Memory>
    ensures { OnOk result ((known : List Literal) × IsClosure primes.now.atoms (formula primes.now) [] known × (found.new ≡ found.old ++ unsettled_below relevance.now known target primes.now.atoms)) }
{
    let _clauses = primes.clauses();
    if is_some_split(relevance, target, primes.atoms()) {
        add_split(alloc, relevance, primes, target, found)?;
    }
    Ok(())
}

/// The clauses in order.
pub(crate) fn in_order(found: Row<LitSet>) -> Result<Row<LitSet>, Memory>
    ensures same { IfOk result (λ sorted. IsPermutation found sorted) }
    ensures order { IfOk result (λ sorted. IsSorted lits_cmp sorted) }
{
    let mut clauses = found.into_vec();
    clauses.sort()?;
    Ok(Row::from_vec(clauses))
}
