ghost use Rattle.std.specs.Prelude.{◌≡◌, ◌≢◌, ◌<◌, ◌≤◌, ◌++◌, ◌∷◌, [], ℕ, cond, fold, length, take, slice_get, IfOk, OnOk};
ghost use Rattle.std.specs.List.{list_any};
ghost use Rattle.kp_base.specs.declared.lit.Lit.{Lit as Literal};
ghost use Rattle.kp_base.specs.Lit.{code_of};
ghost use Rattle.kp_base.specs.Steps.{has};
ghost use Rattle.kp_clauses.specs.Listed.{row};
ghost use Rattle.kp_primes.specs.Placed.{rarer, held_at, AreHolders};

use kp_base::{Lit, LitSet, Memory, Row};
use kp_clauses::{Store, list, make_lists};
use std::alloc::Global;
use std::marker::Model;

/// For each literal the places of the clauses that have it. Contracts see the lists, by the literals' codes.
#[derive(Debug, Drop)]
pub struct Holders {
    alloc: Global,
    lists: Vec<Row<usize>>,
}

impl Model for Holders {
    ghost use Rattle.std.specs.Prelude.{ℕ, List};

    ghost Value = { List (List ℕ) };

    ghost view = { λ h. h.lists.items };
}

impl Holders {
    /// The lists where there are no clauses.
    pub fn new(alloc: Global) -> Holders
        ensures { AreHolders result [] }
    {
        Holders {
            alloc,
            lists: Vec::new(alloc),
        }
    }

    /// The lists of some clauses.
    pub fn all(alloc: Global, clauses: &[LitSet]) -> Result<Holders, Memory>
        ensures { IfOk result (λ holders. AreHolders holders clauses.now) }
    {
        let mut holders = Holders::new(alloc);
        holders.extend(clauses, 0)?;
        Ok(holders)
    }

    /// The places of the clauses that have the literal.
    pub fn of(&self, lit: Lit) -> &[usize]
        ensures { result.now ≡ row self.now (code_of lit) }
    {
        list(&self.lists, lit.code() as usize)
    }

    /// Lists the clauses from a place on.
    pub fn extend(&mut self, clauses: &[LitSet], first: usize) -> Result<(), Memory>
        requires within { first ≤ length clauses.now }
        requires before { AreHolders self.old (take first clauses.now) }
        ensures { OnOk result (AreHolders self.new clauses.now) }
    {
        for i in first..clauses.len() {
            self.push(&clauses[i], i)?;
        }
        Ok(())
    }

    // Puts a clause's place into the lists of its literals.
    fn push(&mut self, c: &LitSet, place: usize) -> Result<(), Memory>
        ensures { OnOk result ((l : Literal) → row self.new (code_of l) ≡ row self.old (code_of l) ++ cond (has c.now l) (place ∷ []) []) }
    {
        let lits = c.slice();
        for l in lits {
            note(self.alloc, &mut self.lists, *l, place)?;
        }
        Ok(())
    }
}

// Puts a place into the list of a literal.
fn note(alloc: Global, lists: &mut Vec<Row<usize>>, lit: Lit, place: usize) -> Result<(), Memory>
    ensures own { OnOk result (row lists.new.items (code_of lit) ≡ row lists.old.items (code_of lit) ++ place ∷ []) }
    ensures others { OnOk result ((k : ℕ) → k ≢ code_of lit → row lists.new.items k ≡ row lists.old.items k) }
{
    let code = lit.code() as usize;
    make_lists(alloc, lists, code)?;
    lists[code].push(place)?;
    Ok(())
}

// The one of two literals that fewer clauses have.
fn rarer(holders: &Holders, a: Lit, b: Lit) -> Lit
    ensures { result ≡ rarer holders.now a b }
{
    if holders.of(b).len() < holders.of(a).len() {
        return b;
    }
    a
}

// The one of some literals that fewest clauses have.
fn rarest(holders: &Holders, first: Lit, lits: &[Lit]) -> Lit
    ensures { result ≡ fold (rarer holders.now) first lits.now }
{
    let mut best = first;
    for l in lits {
        best = rarer(holders, best, *l);
    }
    best
}

// Whether some clause may hold this one: those are looked at that have the literal of it that fewest have.
fn is_held(primes: &Store, holders: &Holders, c: &LitSet) -> bool
    ensures { result ≡ held_at primes.now holders.now c.now (slice_get c.now 0) }
{
    match c.slice().first() {
        Some(l) => {
            let best = rarest(holders, *l, c.slice());
            primes.holds_at(c, holders.of(best))
        }
        None => true,
    }
}

/// Whether some clause may hold one of the others.
pub fn are_held(primes: &Store, holders: &Holders, others: &[LitSet]) -> bool
    ensures { result ≡ list_any (λ c. held_at primes.now holders.now c (slice_get c 0)) others.now }
{
    others.iter().any(|c| is_held(primes, holders, c))
}
