//! One operator, and all, where an entry is expanded.
ghost use Rattle.std.specs.Prelude.{◌≡◌, ◌<◌, ◌≤◌, ◌+◌, ℕ, true, Some, length, slice_get, IfOk, OnOk};
ghost use Rattle.kp_classic.specs.Fits.{IsFit};
ghost use Rattle.kp_search.specs.Estimates.{AreEstimates};
ghost use Rattle.kp_search.specs.Trace.{can};
ghost use Rattle.kp_search.specs.Turns.{Spreads, Tries};
ghost use Rattle.kp_search.specs.Watched.{AreWatched};

use crate::watch::Watch;
use crate::{Origin, Search};
use kp_base::Memory;
use kp_bits::Bits;
use kp_classic::{State, Task, applicable, step_into};
use kp_guide::Estimator;
use std::alloc::Global;

impl Search {
    // What a state is estimated at: what it was when it was expanded, and else what the guide answers.
    fn ask<E: Estimator>(
        &self,
        task: &Task,
        guide: &E,
        state: &State,
    ) -> Result<Option<u32>, Memory>
        requires fit { IsFit task.now }
        requires serves { E.serves guide.now task.now }
        requires of_task { state.now.facts ≡ length task.now.facts }
        requires table { self.now.table.facts ≡ length task.now.facts }
        requires asked { AreEstimates (E.may_answer guide.now task.now) self.now.table.states self.now.estimates.items }
        ensures { IfOk result (E.may_answer guide.now task.now state.now) }
    {
        match self.table.place_of(state) {
            Some(place) => Ok(Some(self.estimates[place])),
            None => guide.estimate(task, state),
        }
    }

    // Enters the state after an operator, where it is applicable and the state isn't hopeless. Only one whose bit is set can be.
    fn try_op<E: Estimator>(
        &mut self,
        ready: &Bits,
        task: &Task,
        guide: &E,
        place: u32,
        op: u32,
        state: &State,
        next: &mut State,
    ) -> Result<(), Memory>
        requires fit { IsFit task.now }
        requires serves { E.serves guide.now task.now }
        requires of_task { state.now.facts ≡ length task.now.facts }
        requires next_of_task { next.old.facts ≡ length task.now.facts }
        requires table { self.old.table.facts ≡ length task.now.facts }
        requires asked { AreEstimates (E.may_answer guide.now task.now) self.old.table.states self.old.estimates.items }
        requires in_range { op < length task.now.ops }
        requires long { length ready.now ≡ length task.now.ops }
        requires ready { (k : ℕ) → can task.now k state.now ≡ true → slice_get ready.now k ≡ Some true }
        ensures facts { next.new.facts ≡ next.old.facts }
        ensures tries { OnOk result (Tries task.now (E.may_answer guide.now task.now) place op state.now self.old self.new) }
        ensures len { OnOk result (length self.new.waiting ≤ length self.old.waiting + 1) }
        ensures expanded { OnOk result (self.new.expanded.items ≡ self.old.expanded.items) }
        ensures estimates { OnOk result (self.new.estimates.items ≡ self.old.estimates.items) }
        ensures table { OnOk result (self.new.table ≡ self.old.table) }
    {
        if !ready.get(op) {
            return Ok(());
        }
        if !applicable(task, state, op) {
            return Ok(());
        }
        step_into(task, state, op, next);
        match self.ask(task, guide, next)? {
            None => Ok(()),
            Some(estimate) => {
                self.enter(Origin::Step(place, op), estimate)?;
                Ok(())
            }
        }
    }

    // Enters what all operators enter, in order. Those are tried that may be applicable.
    pub(crate) fn spread<E: Estimator>(
        &mut self,
        alloc: Global,
        watch: &Watch,
        task: &Task,
        guide: &E,
        place: u32,
        state: &State,
        next: &mut State,
    ) -> Result<(), Memory>
        requires fit { IsFit task.now }
        requires watched { AreWatched task.now (length task.now.ops) watch.now.rows.items }
        requires serves { E.serves guide.now task.now }
        requires of_task { state.now.facts ≡ length task.now.facts }
        requires next_of_task { next.old.facts ≡ length task.now.facts }
        requires table { self.old.table.facts ≡ length task.now.facts }
        requires asked { AreEstimates (E.may_answer guide.now task.now) self.old.table.states self.old.estimates.items }
        ensures facts { next.new.facts ≡ next.old.facts }
        ensures spreads { OnOk result (Spreads task.now (E.may_answer guide.now task.now) place state.now self.old (length task.now.ops) self.new) }
        ensures len { OnOk result (length self.new.waiting ≤ length self.old.waiting + length task.now.ops) }
        ensures expanded { OnOk result (self.new.expanded.items ≡ self.old.expanded.items) }
        ensures estimates { OnOk result (self.new.estimates.items ≡ self.old.estimates.items) }
        ensures table { OnOk result (self.new.table ≡ self.old.table) }
    {
        let ready = watch.ready(alloc, task, state)?;
        let ops = task.ops.len() as u32;
        for op in 0..ops {
            self.try_op(&ready, task, guide, place, op, state, next)?;
        }
        Ok(())
    }
}
