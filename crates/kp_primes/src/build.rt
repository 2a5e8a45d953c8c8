ghost use Rattle.std.specs.Prelude.{◌≡◌, [], fold, length, map, OnOk, IfOk, IfErr};
ghost use Rattle.std.specs.List.Sorted.{IsPermutation, IsSorted};
ghost use Rattle.kp_base.specs.LitSet.{lits_cmp};
ghost use Rattle.kp_clauses.specs.Stored.{subsumed};
ghost use Rattle.kp_primes.specs.Asked.{with_left};
ghost use Rattle.kp_primes.specs.Placed.{AreHolders};
ghost use Rattle.kp_primes.specs.Included.{unit_of, all_included, AreCounted, StopsPrefix};

use crate::ask::add_all_left;
use crate::holders::Holders;
use crate::include::{Entry, include, include_unit};
use kp_base::{AtomId, Lit, LitSet, Memory, Refused, Stop};
use kp_clauses::Store;
use std::alloc::Global;

/// Puts clauses into an empty store, one after another. Refuses the first with which there are more prime implicates
/// than the limit.
pub fn include_all(
    alloc: Global,
    store: &mut Store,
    holders: &mut Holders,
    clauses: &[LitSet],
    limit: u32,
) -> Result<(), Stop>
    requires empty { store.old ≡ [] }
    requires held { AreHolders holders.old store.old }
    ensures all { OnOk result (AreCounted clauses.now limit (length clauses.now) store.new) }
    ensures held { OnOk result (AreHolders holders.new store.new) }
    ensures stopped { IfErr result (StopsPrefix clauses.now limit) }
{
    let _many = clauses.len();
    let mut prefix: u64 = 0;
    for c in clauses {
        let entry = include(alloc, store, holders, c, limit)?;
        prefix += 1;
        match entry {
            Entry::Over => return Err(Stop::Refused(Refused::ImplicatesOver { prefix })),
            Entry::In => {}
        }
    }
    Ok(())
}

/// Puts into a store that atoms are false.
pub fn include_closed(
    alloc: Global,
    store: &mut Store,
    holders: &mut Holders,
    closed: &[AtomId],
) -> Result<(), Memory>
    requires { AreHolders holders.old store.old }
    ensures { OnOk result (store.new ≡ all_included store.old (map unit_of closed.now)) }
{
    for p in closed {
        let lit = Lit {
            atom: *p,
            positive: false,
        };
        include_unit(alloc, store, holders, lit)?;
    }
    Ok(())
}

/// Whether the store has the empty clause.
pub fn has_empty(alloc: Global, store: &Store) -> bool
    ensures { result ≡ subsumed store.now [] }
{
    store.subsumes(&LitSet::new(alloc))
}

/// The clauses in order.
pub fn in_order(mut clauses: Vec<LitSet>) -> Result<Vec<LitSet>, Memory>
    ensures same { IfOk result (λ sorted. IsPermutation clauses.items sorted.items) }
    ensures order { IfOk result (λ sorted. IsSorted lits_cmp sorted.items) }
{
    clauses.sort()?;
    Ok(clauses)
}

/// The literals that each state satisfies in which the clauses are true.
pub fn always(alloc: Global, clauses: &[LitSet]) -> Result<LitSet, Memory>
    ensures { IfOk result (λ set. set ≡ fold (with_left []) [] clauses.now) }
{
    let none = LitSet::new(alloc);
    let mut set = LitSet::new(alloc);
    let added = add_all_left(&mut set, clauses, &none);
    drop(none);
    added?;
    Ok(set)
}
