ghost use Rattle.std.specs.Prelude.{◌≡◌, ◌↔◌, true, false, not, List, [], ◌∷◌, ◌++◌, cond, filter, slice_get, IfOk, OnOk, OnErr};
ghost use Rattle.std.specs.List.{list_any};
ghost use Rattle.kp_base.specs.declared.lit.Lit.{Lit as Literal};
ghost use Rattle.kp_base.specs.Lists.{Member};
ghost use Rattle.kp_base.specs.Implicates.{is_within};
ghost use Rattle.kp_clauses.specs.Stored.{subsumed, replaced, with_clause, with_all, are_apart, AreNeeded};
ghost use Rattle.kp_clauses.specs.Sieved.{stands};
ghost use Rattle.kp_clauses.specs.Rests.{AreRests};
ghost use Rattle.kp_clauses.specs.declared.store.Added.TheVariants.{Subsumed};

use crate::clause::subsumes;
use crate::sieve::Sieve;
use kp_base::{Lit, LitSet, Memory, Row};
use std::alloc::Global;
use std::marker::Model;
use std::mem;

/// Clauses in the order in which they came, none within another. Contracts see the list of them.
#[derive(Drop)]
pub struct Store {
    alloc: Global,
    sieve: Sieve,
}

impl Model for Store {
    ghost use Rattle.std.specs.Prelude.{◌≡◌, true, List};
    ghost use Rattle.kp_base.specs.declared.lit.Lit.{Lit};
    ghost use Rattle.kp_clauses.specs.Stored.{are_apart};

    ghost Value = { List (List Lit) };

    ghost view = { λ s. s.sieve };

    ghost invariant = { λ s. are_apart s.sieve ≡ true };
}

/// What became of a clause.
#[derive(Clone, Copy, Debug, PartialEq, Eq)]
pub enum Added {
    /// It is stored, and each clause that holds it is gone.
    Kept,
    /// A stored clause is within it, and nothing changed.
    Subsumed,
}

impl Store {
    /// No clauses.
    pub fn new(alloc: Global) -> Store
        ensures { result ≡ [] }
    {
        Store {
            alloc,
            sieve: Sieve::new(alloc),
        }
    }

    /// The clauses of a sieve, where none is within another.
    pub fn from_sieve(alloc: Global, sieve: Sieve) -> Store
        requires { are_apart sieve ≡ true }
        ensures { result ≡ sieve }
    {
        Store { alloc, sieve }
    }

    /// The clauses.
    pub fn clauses(&self) -> &Row<LitSet>
        ensures value { result.now ≡ self.now }
        ensures apart { are_apart self.now ≡ true }
    {
        self.sieve.clauses()
    }

    /// The clauses, in a vector.
    pub fn into_clauses(self) -> Vec<LitSet>
        ensures { result.items ≡ self }
    {
        self.sieve.into_clauses()
    }

    /// Whether some clause is within this one.
    pub fn subsumes(&self, c: &LitSet) -> bool
        ensures { result ≡ subsumed self.now c.now }
    {
        self.sieve.subsumes(c)
    }

    /// The literals of a clause that no stored one within it lacks: without one of them no stored clause is within it.
    pub fn needed(&self, c: &LitSet) -> Result<LitSet, Memory>
        ensures { IfOk result (AreNeeded self.now c.now) }
    {
        self.sieve.needed(c)
    }

    /// Whether this clause is within one of those at the places.
    pub fn holds_at(&self, c: &LitSet, places: &[usize]) -> bool
        ensures { result ≡ list_any (λ i. stands (is_within c.now) (slice_get self.now i)) places.now }
    {
        self.sieve.holds_at(c, places)
    }

    /// What clauses have beside one without a literal, of some that have little. Where one of these is within another
    /// clause, a stored one is within the resolvent of the two on the literal.
    pub fn rests(&self, e: &LitSet, lit: Lit) -> Result<Sieve, Memory>
        ensures { IfOk result (AreRests self.now e.now lit) }
    {
        self.sieve.rests(e, lit)
    }

    /// Adds a clause, unless a stored one is within it; the clauses that hold it go. At `Memory` the store is as it
    /// was, and the clause is gone.
    pub fn add(&mut self, clause: LitSet) -> Result<Added, Memory>
        ensures ok { OnOk result (self.new ≡ with_clause self.old clause) }
        ensures which { IfOk result (λ added. (added ≡ Subsumed) ↔ (subsumed self.old clause ≡ true)) }
        ensures err { OnErr result (self.new ≡ self.old) }
    {
        if self.subsumes(&clause) {
            return Ok(Added::Subsumed);
        }
        put(self.alloc, &mut self.sieve, clause)?;
        Ok(Added::Kept)
    }

    /// Adds the clauses of another store, where no clause of this one is within one of them; the clauses that hold one
    /// of them go. At `Memory` it may have any of the clauses, or none.
    pub fn merge(&mut self, other: Store) -> Result<(), Memory>
        requires { (d : List Literal) → Member other d → subsumed self.old d ≡ false }
        ensures { OnOk result (self.new ≡ with_all self.old other) }
    {
        if other.clauses().slice().is_empty() {
            return Ok(());
        }
        let held = mem::replace(&mut self.sieve, Sieve::new(self.alloc));
        self.sieve = without_holders(self.alloc, held.into_clauses(), &other.sieve)?;
        self.join(other)
    }

    /// Adds the clauses of another store, where no clause of either is within one of the other. At `Memory` some of the
    /// first of them are added.
    pub fn join(&mut self, other: Store) -> Result<(), Memory>
        requires { are_apart (self.old ++ other) ≡ true }
        ensures { OnOk result (self.new ≡ self.old ++ other) }
    {
        for c in other.into_clauses() {
            self.push(c)?;
        }
        Ok(())
    }

    // Puts a clause last, which no stored one is within and which is within none.
    fn push(&mut self, clause: LitSet) -> Result<(), Memory>
        requires { are_apart (self.old ++ clause ∷ []) ≡ true }
        ensures ok { OnOk result (self.new ≡ self.old ++ clause ∷ []) }
        ensures err { OnErr result (self.new ≡ self.old) }
    {
        self.sieve.push(clause)
    }
}

// Whether the clause is within one of the others.
fn is_held(clauses: &[LitSet], c: &LitSet) -> bool
    ensures { result ≡ list_any (is_within c.now) clauses.now }
{
    clauses.iter().any(|d| subsumes(c, d))
}

// Takes out the clauses that hold this one, and puts it last.
fn put(alloc: Global, sieve: &mut Sieve, clause: LitSet) -> Result<(), Memory>
    ensures ok { OnOk result (sieve.new ≡ replaced sieve.old clause) }
    ensures err { OnErr result (sieve.new ≡ sieve.old) }
{
    if !is_held(sieve.clauses().slice(), &clause) {
        sieve.push(clause)?;
        return Ok(());
    }
    let mut others = copy_others(alloc, sieve.clauses().slice(), &clause)?;
    others.push(clause)?;
    *sieve = others;
    Ok(())
}

// Copies the clauses that don't hold this one.
fn copy_others(alloc: Global, clauses: &[LitSet], c: &LitSet) -> Result<Sieve, Memory>
    ensures { IfOk result (λ others. others ≡ filter (λ d. not (is_within c.now d)) clauses.now) }
{
    let mut others = Sieve::new(alloc);
    for d in clauses {
        copy_unless_holder(alloc, &mut others, c, d)?;
    }
    Ok(others)
}

// Puts a copy of a clause last, unless it holds another one.
fn copy_unless_holder(
    alloc: Global,
    others: &mut Sieve,
    c: &LitSet,
    d: &LitSet,
) -> Result<(), Memory>
    ensures { OnOk result (others.new ≡ others.old ++ cond (is_within c.now d.now) [] (d.now ∷ [])) }
{
    if subsumes(c, d) {
        return Ok(());
    }
    others.push(d.copy(alloc)?)?;
    Ok(())
}

// The clauses that hold none of a sieve.
fn without_holders(alloc: Global, clauses: Vec<LitSet>, held: &Sieve) -> Result<Sieve, Memory>
    ensures { IfOk result (λ others. others ≡ filter (λ d. not (subsumed held.now d)) clauses.items) }
{
    let mut others = Sieve::new(alloc);
    for d in clauses {
        put_unless_holder(&mut others, held, d)?;
    }
    Ok(others)
}

// Puts a clause last, unless it holds one of a sieve.
fn put_unless_holder(others: &mut Sieve, held: &Sieve, d: LitSet) -> Result<(), Memory>
    ensures { OnOk result (others.new ≡ others.old ++ cond (subsumed held.now d) [] (d ∷ [])) }
{
    if held.subsumes(&d) {
        return Ok(());
    }
    others.push(d)?;
    Ok(())
}
