ghost use Rattle.std.specs.Prelude.{◌≡◌, ◌↔◌, IsTrue, IfOk};
ghost use Rattle.kp_base.specs.Entailed.{Entails, IsConsistent, IsClosure};
ghost use Rattle.kp_base.specs.Implicates.{IsOfAtoms};
ghost use Rattle.kp_primes.specs.Held.{formula, AreWhole};
ghost use Rattle.kp_primes.specs.Answers.{AnswersPrimes, AnswersClosure};

use crate::ask::{add_below, is_entailed};
use crate::build::{always, has_empty, in_order, include_all, include_closed};
use crate::holders::Holders;
use crate::near::{add_left_near, is_inconsistent};
use kp_base::{Initial, Lit, LitSet, Memory, Refused, Row, Stop};
use kp_clauses::Store;
use std::alloc::Global;
use std::marker::Model;

/// All prime implicates of an initial formula that has a model. Contracts see the number of atoms and the list of
/// clauses; where they take no formula, the initial states are the states that satisfy the clauses.
#[derive(Debug, Drop)]
pub struct Primes {
    atoms: u32,
    clauses: Row<LitSet>,
    // The places of the clauses that have a literal.
    holders: Holders,
    // The closure of the empty tag.
    always: LitSet,
}

impl Model for Primes {
    ghost use Rattle.kp_primes.specs.Held.{Held};
    ghost use Rattle.kp_primes.specs.Placed.{AreReady};

    ghost Value = { Held };

    ghost view = { λ p. record { atoms = p.atoms; clauses = p.clauses } };

    ghost invariant = { λ p. AreReady (record { atoms = p.atoms; clauses = p.clauses }) p.holders p.always };
}

impl Primes {
    /// The prime implicates of an initial formula over so many atoms: of its clauses, and of its closed atoms, which
    /// are false.
    ///
    /// Refused `ImplicatesOver` at the least number of first clauses that, without the closed atoms, have more prime
    /// implicates than the limit. Else refused `NoInitialState` where the formula has no model.
    pub fn build(alloc: Global, initial: &Initial, atoms: u32, limit: u32) -> Result<Primes, Stop>
        requires { IsOfAtoms atoms initial.now }
        ensures { AnswersPrimes initial.now atoms limit result }
    {
        let mut store = Store::new(alloc);
        let mut holders = Holders::new(alloc);
        include_all(
            alloc,
            &mut store,
            &mut holders,
            initial.clauses.slice(),
            limit,
        )?;
        include_closed(alloc, &mut store, &mut holders, initial.closed.slice())?;
        drop(holders);
        if has_empty(alloc, &store) {
            return Err(Stop::Refused(Refused::NoInitialState));
        }
        let clauses = Row::from_vec(in_order(store.into_clauses())?);
        let primes = Primes::ready(alloc, atoms, clauses)?;
        Ok(primes)
    }

    // The clauses with what is asked of them again and again.
    fn ready(alloc: Global, atoms: u32, clauses: Row<LitSet>) -> Result<Primes, Memory>
        requires { AreWhole (record { atoms = atoms; clauses = clauses }) }
        ensures { IfOk result (λ primes. primes ≡ record { atoms = atoms; clauses = clauses }) }
    {
        let holders = Holders::all(alloc, clauses.slice())?;
        let always = always(alloc, clauses.slice())?;
        Ok(Primes {
            atoms,
            clauses,
            holders,
            always,
        })
    }

    /// The number of atoms.
    pub fn atoms(&self) -> u32
        ensures { result ≡ self.now.atoms }
    {
        self.atoms
    }

    /// The prime implicates, in order: by the codes of their literals, the first difference deciding.
    pub fn clauses(&self) -> &Row<LitSet>
        ensures value { result.now ≡ self.now.clauses }
        ensures whole { AreWhole self.now }
    {
        &self.clauses
    }

    /// Whether some initial state satisfies the tag.
    pub fn consistent(&self, tag: &LitSet) -> bool
        ensures { IsTrue result ↔ IsConsistent (formula self.now) tag.now }
    {
        !is_inconsistent(self.clauses.slice(), &self.holders, tag)
    }

    /// Whether each initial state that satisfies the tag satisfies the literal.
    pub fn entails(&self, tag: &LitSet, lit: Lit) -> bool
        ensures { IsTrue result ↔ Entails (formula self.now) tag.now lit }
    {
        is_entailed(self.clauses.slice(), tag, lit)
    }

    /// The literals of the atoms that hold in each initial state that satisfies the tag. None where there is no such
    /// state.
    pub fn closure(&self, alloc: Global, tag: &LitSet) -> Result<Option<LitSet>, Memory>
        ensures { IfOk result (AnswersClosure self.now tag.now) }
    {
        if !self.consistent(tag) {
            return Ok(None);
        }
        let set = self.all_entailed(alloc, tag)?;
        Ok(Some(set))
    }

    // The literals of the atoms that a consistent tag entails: those that are always true, its own, and what it leaves
    // of clauses.
    fn all_entailed(&self, alloc: Global, tag: &LitSet) -> Result<LitSet, Memory>
        requires { IsConsistent (formula self.now) tag.now }
        ensures { IfOk result (IsClosure self.now.atoms (formula self.now) tag.now) }
    {
        let mut set = self.always.copy(alloc)?;
        add_below(&mut set, tag.slice(), self.atoms)?;
        add_left_near(&mut set, self.clauses.slice(), &self.holders, tag)?;
        Ok(set)
    }
}
