ghost use Rattle.std.specs.Prelude.{◌≡◌, ◌≤◌, IsTrue, true, false, fold, length, IfOk, OnOk};
ghost use Rattle.kp_base.specs.Lit.{positive, negative};
ghost use Rattle.kp_base.specs.Steps.{has};
ghost use Rattle.kp_base.specs.Implicates.{is_within, is_tautology};
ghost use Rattle.kp_clauses.specs.Walked.{walked, has_pair};
ghost use Rattle.kp_clauses.specs.Resolved.{with_unless, with_if, common, opposed_elsewhere, resolved, resolvent_on};

use kp_base::{AtomId, Lit, LitSet, Memory};
use std::alloc::Global;

/// Whether the clause has the literal.
pub fn has_lit(c: &LitSet, lit: Lit) -> bool
    ensures { result ≡ has c.now lit }
{
    c.has(lit)
}

// Whether the first clause begins before the second, and so isn't within it.
fn begins_before(c: &LitSet, d: &LitSet) -> bool
    ensures { IsTrue result → is_within c.now d.now ≡ false }
{
    match (c.slice().first(), d.slice().first()) {
        (Some(x), Some(y)) => x.code() < y.code(),
        _ => false,
    }
}

// Whether the last literal of the first clause isn't in the second, so that the first isn't within it.
fn ends_outside(c: &LitSet, d: &LitSet) -> bool
    ensures { IsTrue result → is_within c.now d.now ≡ false }
{
    match c.slice().last() {
        Some(x) => !has_lit(d, *x),
        None => false,
    }
}

// Whether each literal of the first list is in the second: one walk over both, which may pass over so many literals of
// the second.
fn is_walked(c: &[Lit], d: &[Lit], spare: usize) -> bool
    ensures { result ≡ walked spare c.now d.now }
{
    let mut at = 0;
    let mut left = spare;
    for y in d {
        match c.get(at) {
            None => return true,
            Some(x) => {
                if x.code() == y.code() {
                    at += 1;
                    continue;
                }
                if x.code() < y.code() || left == 0 {
                    return false;
                }
                left -= 1;
            }
        }
    }
    at == c.len()
}

// Whether each literal of the first clause is in the second, which has no fewer.
fn is_in_longer(c: &LitSet, d: &LitSet) -> bool
    requires { length c.now ≤ length d.now }
    ensures { result ≡ is_within c.now d.now }
{
    let lits = c.slice();
    let others = d.slice();
    is_walked(lits, others, others.len() - lits.len())
}

// Whether each literal of the first clause is in the second. Where the second has many more, each is looked for.
fn is_inside(c: &LitSet, d: &LitSet) -> bool
    ensures { result ≡ is_within c.now d.now }
{
    if d.slice().len() < c.slice().len() {
        return false;
    }
    if d.slice().len() / 8 < c.slice().len() {
        return is_in_longer(c, d);
    }
    c.within(d)
}

/// Whether each literal of the first clause is in the second.
pub fn subsumes(c: &LitSet, d: &LitSet) -> bool
    ensures { result ≡ is_within c.now d.now }
{
    // Most pairs of clauses are told apart by their first literals or the last.
    if begins_before(c, d) || ends_outside(c, d) {
        return false;
    }
    is_inside(c, d)
}

// Whether two literals, one behind the other, are of one atom, where this one stands before the first.
fn has_pair(first: Lit, lits: &[Lit]) -> bool
    ensures { result ≡ has_pair first lits.now }
{
    let mut last = first;
    for y in lits {
        if last.atom == y.atom {
            return true;
        }
        last = *y;
    }
    false
}

/// Whether the clause has a literal and its negation.
pub fn is_tautology(c: &LitSet) -> bool
    ensures { result ≡ is_tautology c.now }
{
    // In order of code the two stand side by side.
    match c.slice().split_first() {
        Some((x, others)) => has_pair(*x, others),
        None => false,
    }
}

// Adds a literal, unless it is the one to be left out.
fn add_unless(set: &mut LitSet, out: Lit, lit: Lit) -> Result<(), Memory>
    ensures { OnOk result (set.new ≡ with_unless out set.old lit) }
{
    if lit != out {
        set.insert(lit)?;
    }
    Ok(())
}

// Adds the literals of a clause but one.
fn add_others(set: &mut LitSet, c: &LitSet, out: Lit) -> Result<(), Memory>
    ensures { OnOk result (set.new ≡ fold (with_unless out) set.old c.now) }
{
    let lits = c.slice();
    for l in lits {
        add_unless(set, out, *l)?;
    }
    Ok(())
}

// Adds a literal, if the clause has it.
fn add_if(set: &mut LitSet, d: &LitSet, lit: Lit) -> Result<(), Memory>
    ensures { OnOk result (set.new ≡ with_if d.now set.old lit) }
{
    if has_lit(d, lit) {
        set.insert(lit)?;
    }
    Ok(())
}

/// What a set and a clause have in common.
pub(crate) fn common(alloc: Global, set: &LitSet, d: &LitSet) -> Result<LitSet, Memory>
    ensures { IfOk result (λ both. both ≡ common set.now d.now) }
{
    let mut both = LitSet::new(alloc);
    let lits = set.slice();
    for l in lits {
        add_if(&mut both, d, *l)?;
    }
    Ok(both)
}

// The literals of both but the literal in the first and its negation in the second.
fn join(alloc: Global, c: &LitSet, d: &LitSet, lit: Lit) -> Result<LitSet, Memory>
    ensures { IfOk result (λ set. set ≡ resolved c.now d.now lit) }
{
    let mut set = LitSet::new(alloc);
    add_others(&mut set, c, lit)?;
    add_others(&mut set, d, lit.negated())?;
    Ok(set)
}

// Whether another literal of the first clause has its negation in the second.
fn opposed_elsewhere(c: &LitSet, d: &LitSet, lit: Lit) -> bool
    ensures { result ≡ opposed_elsewhere c.now d.now lit }
{
    c.slice()
        .iter()
        .any(|x| *x != lit && has_lit(d, x.negated()))
}

/// The resolvent of two clauses on a literal of the first whose negation is in the second. None where it is a
/// tautology. Of clauses without these it is the set that the clause says, which is no resolvent.
#[tactic(auto, using(crate::proofs::Resolving::opposed_tautology))]
pub fn resolve(alloc: Global, c: &LitSet, d: &LitSet, lit: Lit) -> Result<Option<LitSet>, Memory>
    ensures { IfOk result (λ found. found ≡ resolvent_on lit c.now d.now) }
{
    // Most resolvents are tautologies, and these need not be made.
    if opposed_elsewhere(c, d, lit) {
        return Ok(None);
    }
    let both = join(alloc, c, d, lit)?;
    if is_tautology(&both) {
        return Ok(None);
    }
    Ok(Some(both))
}

/// The resolvent of two clauses on an atom that is positive in the first and negative in the second. None where it is
/// a tautology.
pub fn resolvent(
    alloc: Global,
    c: &LitSet,
    d: &LitSet,
    atom: AtomId,
) -> Result<Option<LitSet>, Memory>
    requires positive { has c.now (positive atom.0) ≡ true }
    requires negative { has d.now (negative atom.0) ≡ true }
    ensures { IfOk result (λ found. found ≡ resolvent_on (positive atom.0) c.now d.now) }
{
    let lit = Lit {
        atom,
        positive: true,
    };
    let found = resolve(alloc, c, d, lit)?;
    Ok(found)
}
