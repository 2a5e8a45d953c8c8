ghost use Rattle.std.specs.Prelude.{◌≡◌, ◌<◌, ◌*◌, true, IfOk};
ghost use Rattle.kp_base.specs.Implicates.{IsOfItsAtoms};
ghost use Rattle.kp_relevance.specs.Relevant.{is_pair, ArePairsOf};
ghost use Rattle.kp_relevance.specs.Candidates.{AnswersClausesFor};
ghost use Rattle.kp_relevance.specs.Gathered.{IsLone};
ghost use Rattle.kp_relevance.specs.Tabled.{is_marked, IsWide};

use crate::fill::{mark_actions, mark_own};
use crate::gather::{add_differing, add_wanted, in_order};
use crate::lone::is_lone;
use crate::table::{close, empty_table};
use kp_base::{Ground, Lit, LitSet, Memory, Row};
use kp_bits::Bits;
use kp_primes::Primes;
use std::alloc::Global;
use std::marker::Model;

/// Which literals of a ground problem are relevant to which. Contracts see the list of the pairs of literals of which
/// the first is relevant to the second.
#[derive(Drop)]
pub struct Relevance {
    atoms: u32,
    // A row for each literal, by code, of the literals that are relevant to it.
    rows: Vec<Bits>,
}

impl Model for Relevance {
    ghost use Rattle.std.specs.Prelude.{List};
    ghost use Rattle.kp_base.specs.declared.lit.Lit.{Lit as Literal};
    ghost use Rattle.kp_relevance.specs.Tabled.{pairs_of, IsWide};

    ghost Value = { List (Literal × Literal) };

    ghost view = { λ r. pairs_of r.atoms r.rows.items };

    ghost invariant = { λ r. IsWide r.atoms r.rows.items };
}

// Whether the first literal is marked in the row of the second. No literal of other atoms is.
fn is_marked(atoms: u32, rows: &[Bits], from: Lit, to: Lit) -> bool
    requires { IsWide atoms rows.now }
    ensures { result ≡ is_marked atoms rows.now from to }
{
    if from.atom.0 < atoms && to.atom.0 < atoms {
        rows[to.code() as usize].get(from.code() as u32)
    } else {
        false
    }
}

// The clauses that are relevant to a literal to which no other literal is relevant: there are none.
fn no_clauses(alloc: Global, relevance: &Relevance, primes: &Primes, target: Lit) -> Row<LitSet>
    requires below { target.atom.0 < primes.now.atoms }
    requires lone { IsLone relevance.now target }
    ensures { AnswersClausesFor relevance.now primes.now target result }
{
    // (what always holds of prime implicates is known behind a call on them)
    let _clauses = primes.clauses();
    Row::new(alloc)
}

// The clauses that are relevant to a literal, out of all.
fn gather(
    alloc: Global,
    relevance: &Relevance,
    primes: &Primes,
    target: Lit,
) -> Result<Row<LitSet>, Memory>
    requires { target.atom.0 < primes.now.atoms }
    ensures { IfOk result (AnswersClausesFor relevance.now primes.now target) }
{
    let mut found = Row::new(alloc);
    add_wanted(
        alloc,
        relevance,
        primes.clauses().slice(),
        target,
        &mut found,
    )?;
    add_differing(alloc, relevance, primes, target, &mut found)?;
    let clauses = in_order(found)?;
    Ok(clauses)
}

impl Relevance {
    /// The relevance of the literals of a ground problem.
    pub fn of(alloc: Global, ground: &Ground) -> Result<Relevance, Memory>
        requires { IsOfItsAtoms ground.now }
        ensures { IfOk result (ArePairsOf ground.now) }
    {
        let atoms = ground.atoms.len() as u32;
        let n = 2 * atoms;
        let mut rows = empty_table(alloc, n)?;
        mark_own(&mut rows, n);
        mark_actions(&mut rows, ground.actions.slice(), atoms);
        close(alloc, &mut rows, n)?;
        Ok(Relevance { atoms, rows })
    }

    /// Whether the first literal is relevant to the second. No literal of other atoms is.
    pub fn relevant(&self, from: Lit, to: Lit) -> bool
        ensures { result ≡ is_pair self.now from to }
    {
        is_marked(self.atoms, &self.rows, from, to)
    }

    /// The candidate clauses each of whose literals is relevant to the target, in order: by the codes of their
    /// literals, the first difference deciding. A candidate clause is a prime implicate of more than one literal, or
    /// that an atom or its negation is true, where initial states differ in the atom.
    pub fn clauses_for(
        &self,
        alloc: Global,
        primes: &Primes,
        target: Lit,
    ) -> Result<Row<LitSet>, Memory>
        requires { target.atom.0 < primes.now.atoms }
        ensures { IfOk result (AnswersClausesFor self.now primes.now target) }
    {
        if self.is_lone(target) {
            return Ok(no_clauses(alloc, self, primes, target));
        }
        gather(alloc, self, primes, target)
    }

    // Whether no other literal is relevant to this one.
    fn is_lone(&self, target: Lit) -> bool
        ensures { result ≡ true → IsLone self.now target }
    {
        target.atom.0 < self.atoms
            && is_lone(
                &self.rows[target.code() as usize],
                2 * self.atoms,
                target.code() as u32,
            )
    }
}
