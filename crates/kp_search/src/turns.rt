//! The turns of a search.
ghost use Rattle.std.specs.Prelude.{◌≡◌, ◌<◌, ◌+◌, false, length, IfOk, OnOk, MatchOption};
ghost use Rattle.kp_classic.specs.Fits.{IsFit};
ghost use Rattle.kp_search.specs.Trace as trace;
ghost use Rattle.kp_search.specs.Ends.{HasEnd, Tells};
ghost use Rattle.kp_search.specs.Scratch.{AreOf};
ghost use Rattle.kp_search.specs.Turns.{IsAt, IsTaken, work};
ghost use Rattle.kp_search.specs.Watched.{AreWatched};

use crate::scratch::Scratch;
use crate::watch::Watch;
use crate::{Found, Key, Origin, Search};
use kp_base::Memory;
use kp_classic::{State, Task, meets};
use kp_guide::Estimator;
use std::alloc::Global;

impl Search {
    // Expands an entry that was taken, unless its state was taken before.
    fn expand<E: Estimator>(
        &mut self,
        alloc: Global,
        watch: &Watch,
        task: &Task,
        guide: &E,
        budget: u32,
        key: Key,
        state: &State,
        next: &mut State,
    ) -> Result<(), Memory>
        requires fit { IsFit task.now }
        requires watched { AreWatched task.now (length task.now.ops) watch.now.rows.items }
        requires serves { E.serves guide.now task.now }
        requires of_task { state.now.facts ≡ length task.now.facts }
        requires next_of_task { next.old.facts ≡ length task.now.facts }
        requires taken { IsTaken task.now (E.may_answer guide.now task.now) budget key state.now self.old }
        requires no_goal { trace.is_goal task.now state.now ≡ false }
        requires room { length self.old.expanded.items < budget }
        ensures facts { next.new.facts ≡ length task.now.facts }
        ensures at { OnOk result (IsAt task.now (E.may_answer guide.now task.now) budget self.new) }
        ensures less { OnOk result (work task.now budget self.new < work task.now budget self.old + 1) }
    {
        let place = self.expanded.len() as u32;
        if !self.keep(key, state)? {
            return Ok(());
        }
        self.spread(alloc, watch, task, guide, place, state, next)?;
        Ok(())
    }

    // Ends the search with an entry that was taken, or else expands it. None where the search goes on.
    fn visit<E: Estimator>(
        &mut self,
        alloc: Global,
        watch: &Watch,
        task: &Task,
        guide: &E,
        budget: u32,
        key: Key,
        state: &State,
        next: &mut State,
    ) -> Result<Option<Found>, Memory>
        requires fit { IsFit task.now }
        requires watched { AreWatched task.now (length task.now.ops) watch.now.rows.items }
        requires serves { E.serves guide.now task.now }
        requires of_task { state.now.facts ≡ length task.now.facts }
        requires next_of_task { next.old.facts ≡ length task.now.facts }
        requires taken { IsTaken task.now (E.may_answer guide.now task.now) budget key state.now self.old }
        ensures facts { next.new.facts ≡ length task.now.facts }
        ensures ends { IfOk result (λ end. MatchOption end ((IsAt task.now (E.may_answer guide.now task.now) budget self.new) × (work task.now budget self.new < work task.now budget self.old + 1)) (HasEnd task.now (E.may_answer guide.now task.now) budget)) }
    {
        let expanded = self.expanded.len();
        if meets(task, state) {
            let ops = self.ops_to(alloc, task, key.number)?;
            let expanded = expanded as u32;
            return Ok(Some(Found::Plan { ops, expanded }));
        }
        if expanded < budget as usize {
            self.expand(alloc, watch, task, guide, budget, key, state, next)?;
            return Ok(None);
        }
        if self.table.has(state) {
            return Ok(None);
        }
        Ok(Some(Found::Spent { expanded: budget }))
    }

    // Takes the next entry. None where the search goes on.
    fn turn<E: Estimator>(
        &mut self,
        alloc: Global,
        watch: &Watch,
        task: &Task,
        guide: &E,
        budget: u32,
        scratch: &mut Scratch,
    ) -> Result<Option<Found>, Memory>
        requires fit { IsFit task.now }
        requires watched { AreWatched task.now (length task.now.ops) watch.now.rows.items }
        requires serves { E.serves guide.now task.now }
        requires at { IsAt task.now (E.may_answer guide.now task.now) budget self.old }
        requires scratch { AreOf task.now scratch.old }
        ensures scratch { AreOf task.now scratch.new }
        ensures ends { IfOk result (λ end. MatchOption end ((IsAt task.now (E.may_answer guide.now task.now) budget self.new) × (work task.now budget self.new < work task.now budget self.old)) (HasEnd task.now (E.may_answer guide.now task.now) budget)) }
    {
        let key = match self.take() {
            Some(key) => key,
            None => return Ok(Some(Found::NoPlan)),
        };
        self.load(
            task,
            key.number,
            &scratch.first,
            &mut scratch.spare,
            &mut scratch.state,
        );
        self.visit(
            alloc,
            watch,
            task,
            guide,
            budget,
            key,
            &scratch.state,
            &mut scratch.spare,
        )
    }

    // Takes entries until the search ends.
    fn take_turns<E: Estimator>(
        &mut self,
        alloc: Global,
        watch: &Watch,
        task: &Task,
        guide: &E,
        budget: u32,
        scratch: &mut Scratch,
    ) -> Result<Found, Memory>
        requires fit { IsFit task.now }
        requires watched { AreWatched task.now (length task.now.ops) watch.now.rows.items }
        requires serves { E.serves guide.now task.now }
        requires at { IsAt task.now (E.may_answer guide.now task.now) budget self.old }
        requires scratch { AreOf task.now scratch.old }
        ensures { IfOk result (HasEnd task.now (E.may_answer guide.now task.now) budget) }
    {
        'turns: loop {
            let end = self.turn(alloc, watch, task, guide, budget, scratch)?;
            if let Some(found) = end {
                return Ok(found);
            }
        }
    }
}

// Enters the state at the start.
fn begin<E: Estimator>(
    alloc: Global,
    task: &Task,
    guide: &E,
    budget: u32,
    first: &State,
) -> Result<Search, Memory>
    requires fit { IsFit task.now }
    requires serves { E.serves guide.now task.now }
    requires first { first.now ≡ trace.first task.now }
    ensures { IfOk result (IsAt task.now (E.may_answer guide.now task.now) budget) }
{
    let estimate = guide.estimate(task, first)?;
    let mut search = Search::new(alloc, task.facts.len() as u32, budget)?;
    match estimate {
        None => Ok(search),
        Some(estimate) => {
            search.enter(Origin::Start, estimate)?;
            Ok(search)
        }
    }
}

// Searches with these states.
fn search_with<E: Estimator>(
    alloc: Global,
    watch: &Watch,
    task: &Task,
    guide: &E,
    budget: u32,
    scratch: &mut Scratch,
) -> Result<Found, Memory>
    requires fit { IsFit task.now }
    requires watched { AreWatched task.now (length task.now.ops) watch.now.rows.items }
    requires serves { E.serves guide.now task.now }
    requires scratch { AreOf task.now scratch.old }
    ensures { IfOk result (HasEnd task.now (E.may_answer guide.now task.now) budget) }
{
    let mut search = begin(alloc, task, guide, budget, &scratch.first)?;
    search.take_turns(alloc, watch, task, guide, budget, scratch)
}

/// Searches for a plan: takes the entry of least estimate first, and of those the one that was entered first. The rows of all
/// states that may be expanded are made before the first entry is taken. An estimator that was made for one task can only be
/// asked about that task; the `Guide` of `kp_guide` serves every task that fits.
pub fn search<E: Estimator>(
    alloc: Global,
    task: &Task,
    guide: &E,
    budget: u32,
) -> Result<Found, Memory>
    requires fit { IsFit task.now }
    requires serves { E.serves guide.now task.now }
    ensures end { IfOk result (HasEnd task.now (E.may_answer guide.now task.now) budget) }
    ensures tells { IfOk result (Tells task.now budget) }
{
    let mut scratch = Scratch::new(alloc, task)?;
    let watch = Watch::of(alloc, task)?;
    let found = search_with(alloc, &watch, task, guide, budget, &mut scratch)?;
    guide.is_right();
    Ok(found)
}
