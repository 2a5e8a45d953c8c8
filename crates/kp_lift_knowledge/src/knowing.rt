ghost use Rattle.std.specs.Prelude.{◌≡◌, ◌<◌, ◌&&◌, not, true, false, Some, length, nat_lt, IfOk, IfSome, IfNone};
ghost use Rattle.std.specs.List.{list_all};
ghost use Rattle.kp_base.specs.Planning.{IsAscending, are_below, action_below, IsLeastMissing, Known, after_act, may_merge, after_merge};
ghost use Rattle.kp_lift_knowledge.specs.Known.{IsLike, Says, Starts};

use crate::acting::{cancel_all, support_all, take_over_all};
use crate::asking::{first_missing, merges_anew};
use crate::filling::started;
use crate::met::Met;
use crate::rows::Rows;
use kp_base::{Action, Lit, Memory, Merge, TagTable};
use std::alloc::Global;
use std::marker::Model;

/// What is known under each tag, from step to step. Contracts see the table of the bits, of which `Says` tells what is
/// known.
#[derive(Drop)]
pub struct Knowing {
    known: Rows,
    // What is known after a step, while it is worked out; between steps it says the same.
    next: Rows,
    met: Met,
}

impl Model for Knowing {
    ghost use Rattle.kp_lift_knowledge.specs.Known.{Table};
    ghost use Rattle.kp_lift_knowledge.specs.Tabled.{IsAtRest};

    ghost Value = { Table };

    ghost view = { λ k. k.known };

    ghost invariant = { λ k. IsAtRest k.known k.next k.met };
}

impl Knowing {
    /// What is known at the start: under each tag the literals of its closure, which are of the first `atoms` atoms.
    pub fn start(alloc: Global, atoms: u32, table: &TagTable) -> Result<Knowing, Memory>
        requires few_atoms { atoms < 2147483648 }
        requires few_tags { length table.now.tags < 4294967296 }
        requires below { list_all (λ row. are_below atoms row.closure) table.now.tags ≡ true }
        ensures { IfOk result (Starts atoms table.now) }
    {
        let known = started(alloc, atoms, table)?;
        let next = started(alloc, atoms, table)?;
        let met = Met::new(alloc, table.tags.len() as u32)?;
        Ok(Knowing { known, next, met })
    }

    /// The least of the literals that isn't known under tag 0.
    pub fn first_unknown(&self, lits: &[Lit]) -> Option<Lit>
        requires some_tag { 0 < self.now.tags }
        requires below { are_below self.now.atoms lits.now ≡ true }
        requires ascending { IsAscending lits.now }
        ensures some { (k : Known) → Says self.now k → IfSome result (IsLeastMissing (k 0) lits.now) }
        ensures none { (k : Known) → Says self.now k → IfNone result (list_all (k 0) lits.now ≡ true) }
    {
        first_missing(&self.known, lits)
    }

    /// Takes an action. Whether its precondition is known isn't asked.
    pub fn act(&mut self, action: &Action)
        requires below { action_below self.old.atoms action.now ≡ true }
        ensures like { IsLike self.new self.old }
        ensures known { (k : Known) → Says self.old k → Says self.new (after_act (Some action.now) k) }
    {
        let effects = action.effects.slice();
        cancel_all(&mut self.next, &self.known, &mut self.met, effects);
        support_all(&mut self.next, &self.known, &mut self.met, effects);
        take_over_all(&mut self.known, &self.next, effects);
    }

    /// Takes a merge, if it is allowed and its target isn't known under tag 0 yet: answers whether it did.
    pub fn merge(&mut self, merge: &Merge) -> bool
        requires some_tag { 0 < self.old.tags }
        requires target { merge.now.target.atom.0 < self.old.atoms }
        requires tags { list_all (λ t. nat_lt t self.old.tags) merge.now.tags ≡ true }
        ensures answer { (k : Known) → Says self.old k → result ≡ (may_merge (Some merge.now) k && not (k 0 merge.now.target)) }
        ensures like { IsLike self.new self.old }
        ensures known { (k : Known) → Says self.old k → result ≡ true → Says self.new (after_merge (Some merge.now) k) }
        ensures unchanged { result ≡ false → self.new ≡ self.old }
    {
        if !merges_anew(&self.known, merge) {
            return false;
        }
        self.known.set(0, merge.target);
        self.next.set(0, merge.target);
        true
    }
}
