ghost use Rattle.std.specs.Prelude.{◌≡◌, ◌<◌, [], length, IfOk, IfSome, IfNone, OnOk};
ghost use Rattle.kp_search.specs.Kept.{Adds, ExpandsIfNew, Pops, IsEmpty};

use crate::{Key, Table, Waiting};
use kp_base::Memory;
use kp_classic::State;
use std::alloc::Global;

/// Where an entry comes from: the start, or an expanded entry, by its place among those, and an operator.
#[derive(Clone, Copy)]
pub enum Origin {
    /// The state at the start.
    Start,
    /// The state after an operator.
    Step(u32, u32),
}

/// How far a search has come.
#[derive(Drop)]
pub struct Search {
    /// Where each entry comes from.
    pub origins: Vec<Origin>,
    /// The entries that wait.
    pub waiting: Waiting,
    /// The numbers of the expanded entries.
    pub expanded: Vec<usize>,
    /// What they were estimated at.
    pub estimates: Vec<u32>,
    /// Their states.
    pub table: Table,
}

impl Search {
    /// Nothing is entered yet. The table has room for the whole budget, and will want no more memory.
    pub fn new(alloc: Global, facts: u32, budget: u32) -> Result<Search, Memory>
        ensures empty { IfOk result (IsEmpty facts) }
        ensures room { IfOk result (λ search. search.table.room ≡ budget) }
    {
        Ok(Search {
            table: Table::with_capacity(alloc, facts, budget)?,
            origins: Vec::new(alloc),
            waiting: Waiting::new(alloc),
            expanded: Vec::new(alloc),
            estimates: Vec::new(alloc),
        })
    }

    /// Enters what comes from there.
    pub fn enter(&mut self, origin: Origin, estimate: u32) -> Result<(), Memory>
        ensures { OnOk result (Adds self.old origin estimate self.new) }
    {
        let number = self.origins.len();
        self.origins.push(origin)?;
        self.waiting.push(Key { estimate, number })?;
        Ok(())
    }

    /// Takes out the first of the waiting.
    pub fn take(&mut self) -> Option<Key>
        ensures some { IfSome result (λ key. Pops self.old key self.new) }
        ensures none { IfNone result (self.old.waiting ≡ []) }
    {
        self.waiting.pop()
    }

    /// Keeps an entry as expanded, with its state and what that was estimated at, unless the state is there. Whether it was
    /// kept.
    pub fn keep(&mut self, key: Key, state: &State) -> Result<bool, Memory>
        requires same { state.now.facts ≡ self.old.table.facts }
        requires room { length self.old.table.states < self.old.table.room }
        ensures { IfOk result (λ kept. ExpandsIfNew self.old key state.now kept self.new) }
    {
        if !self.table.insert(state) {
            return Ok(false);
        }
        self.expanded.push(key.number)?;
        self.estimates.push(key.estimate)?;
        Ok(true)
    }
}
