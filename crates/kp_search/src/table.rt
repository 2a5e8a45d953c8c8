ghost use Rattle.std.specs.Prelude.{◌≡◌, ◌<◌, ◌↔◌, [], ◌∷◌, ◌++◌, Some, length, slice_get, take, vec_capacity, IsTrue, IfOk, IfSome, IfNone};
ghost use Rattle.std.specs.List.{AllByRecursion};
ghost use Rattle.kp_base.specs.Lists.{Member};
ghost use Rattle.kp_classic.specs.States.{FactSet};
ghost use Rattle.kp_search.specs.Sorted.{IsGap, IsWhole};
ghost use Rattle.kp_search.specs.StateTables.{Inserts};

use crate::sorted::place_in;
use kp_base::Memory;
use kp_classic::State;
use std::alloc::Global;
use std::marker::Model;

/// States of one task, in the order in which they came in. All rows are made at once. Contracts see the number of facts, the
/// states, and how many there is room for.
#[derive(Drop)]
pub struct Table {
    facts: u32,
    // The states that came in, and behind them rows for others.
    rows: Vec<State>,
    // The places of those that came in, in the order of the states.
    order: Vec<usize>,
}

impl Model for Table {
    ghost use Rattle.std.specs.Prelude.{length, take, vec_capacity};
    ghost use Rattle.kp_search.specs.Sorted.{IsWhole};
    ghost use Rattle.kp_search.specs.StateTables.{StateList};

    ghost Value = { StateList };

    ghost view = { λ t. record { facts = t.facts; states = take (length t.order.items) t.rows.items; room = length t.rows.items } };

    ghost invariant = { λ t. IsWhole t.facts t.rows.items t.order.items (vec_capacity t.order) };
}

// So many states in which no fact holds.
fn empty_rows(alloc: Global, facts: u32, count: u32) -> Result<Vec<State>, Memory>
    ensures alike { IfOk result (λ rows. AllByRecursion (λ (s : FactSet). s.facts ≡ facts) rows.items) }
    ensures count { IfOk result (λ rows. length rows.items ≡ count) }
{
    let mut rows = Vec::with_capacity(alloc, count as usize)?;
    for _ in 0..count {
        rows.push(State::empty(alloc, facts)?)?;
    }
    Ok(rows)
}

// Copies a state into the next row, and puts that row's place into a gap of the order. The order has room for it.
fn put(rows: &mut [State], order: &mut Vec<usize>, gap: usize, state: &State)
    requires whole { IsWhole state.now.facts rows.old order.old.items (vec_capacity order.old) }
    requires gap { IsGap (take (length order.old.items) rows.old) order.old.items gap state.now }
    requires room { length order.old.items < length rows.old }
    ensures whole { IsWhole state.now.facts rows.new order.new.items (vec_capacity order.new) }
    ensures states { take (length order.new.items) rows.new ≡ take (length order.old.items) rows.old ++ state.now ∷ [] }
    ensures rows { length rows.new ≡ length rows.old }
{
    let place = order.len();
    rows[place].copy_from(state);
    let _inserted = order.insert(gap, place);
}

impl Table {
    /// A table without states that has room for so many; each row of bits is made here.
    pub fn with_capacity(alloc: Global, facts: u32, room: u32) -> Result<Table, Memory>
        ensures facts { IfOk result (λ table. table.facts ≡ facts) }
        ensures none { IfOk result (λ table. table.states ≡ []) }
        ensures room { IfOk result (λ table. table.room ≡ room) }
    {
        let rows = empty_rows(alloc, facts, room)?;
        let order = Vec::with_capacity(alloc, room as usize)?;
        Ok(Table { facts, rows, order })
    }

    // The states that came in.
    fn states(&self) -> &[State]
        ensures states { result.now ≡ self.now.states }
        ensures alike { AllByRecursion (λ (s : FactSet). s.facts ≡ self.now.facts) result.now }
    {
        &self.rows[..self.order.len()]
    }

    /// The place of a state, if it is there.
    pub fn place_of(&self, state: &State) -> Option<usize>
        requires { state.now.facts ≡ self.now.facts }
        ensures some { IfSome result (λ place. slice_get self.now.states place ≡ Some state.now) }
        ensures none { IfNone result (Member self.now.states state.now → ⊥) }
    {
        match place_in(self.states(), &self.order, state) {
            Ok(at) => Some(self.order[at]),
            Err(_) => None,
        }
    }

    /// Whether the state is there.
    pub fn has(&self, state: &State) -> bool
        requires { state.now.facts ≡ self.now.facts }
        ensures { IsTrue result ↔ Member self.now.states state.now }
    {
        self.place_of(state).is_some()
    }

    /// Adds a state at the end, unless it is there. Whether it was added. There is memory for it.
    pub fn insert(&mut self, state: &State) -> bool
        requires same { state.now.facts ≡ self.old.facts }
        requires room { length self.old.states < self.old.room }
        ensures { Inserts self.old state.now result self.new }
    {
        match place_in(self.states(), &self.order, state) {
            Ok(_) => false,
            Err(gap) => {
                put(&mut self.rows, &mut self.order, gap, state);
                true
            }
        }
    }

    /// Makes a state the one at a place.
    pub fn load(&self, place: u32, state: &mut State)
        requires same { state.old.facts ≡ self.now.facts }
        requires in_range { place < length self.now.states }
        ensures facts { state.new.facts ≡ state.old.facts }
        ensures state { slice_get self.now.states place ≡ Some state.new }
    {
        state.copy_from(&self.states()[place as usize]);
    }
}
