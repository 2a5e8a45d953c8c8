//! Operators by a fact that must hold for them, so that not all of them are tried in each state.
ghost use Rattle.std.specs.Prelude.{◌≡◌, ◌<◌, ◌⊎◌, ◌+◌, ◌∷◌, ◌++◌, [], ℕ, true, Some, length, set, slice_get, IfOk, OnOk};
ghost use Rattle.kp_base.specs.Lists.{Member};
ghost use Rattle.kp_classic.specs.Fits.{IsFit};
ghost use Rattle.kp_classic.specs.States.{has};
ghost use Rattle.kp_search.specs.Trace.{can};
ghost use Rattle.kp_search.specs.Watched.{row, AreWatched};

use kp_base::{Memory, Row};
use kp_bits::Bits;
use kp_classic::{State, Task};
use std::alloc::Global;

/// For each fact some operators for which it must hold, and behind these rows one of those that need none. Each operator
/// stands in one row.
#[derive(Drop)]
pub(crate) struct Watch {
    pub(crate) rows: Vec<Row<u32>>,
}

// The numbers in the row of a place.
fn row(rows: &[Row<u32>], place: usize) -> &[u32]
    ensures { result.now ≡ row rows.now place }
{
    match rows.get(place) {
        Some(numbers) => numbers.slice(),
        None => &[],
    }
}

// The one of two places whose row is shorter; the other where the first is the last of all.
fn shorter(rows: &[Row<u32>], best: usize, place: usize, last: usize) -> usize
    ensures { (result ≡ best) ⊎ (result ≡ place) }
{
    if best == last || row(rows, place).len() < row(rows, best).len() {
        return place;
    }
    best
}

// The place for an operator for which these facts must hold: that of one of them, or the last.
fn place_for(rows: &[Row<u32>], facts: &[u32], last: usize) -> usize
    ensures { Member facts.now result ⊎ (result ≡ last) }
{
    let mut best = last;
    for fact in facts {
        best = shorter(rows, best, *fact as usize, last);
    }
    best
}

// Puts a number into the row of a place.
fn put(rows: &mut [Row<u32>], place: usize, number: u32) -> Result<(), Memory>
    requires { place < length rows.old }
    ensures { OnOk result (rows.new ≡ set rows.old place (row rows.old place ++ number ∷ [])) }
{
    rows[place].push(number)?;
    Ok(())
}

// Puts each operator into a row.
fn put_all(task: &Task, rows: &mut [Row<u32>]) -> Result<(), Memory>
    requires fit { IsFit task.now }
    requires long { length rows.old ≡ length task.now.facts + 1 }
    requires empty { (place : ℕ) → row rows.old place ≡ [] }
    ensures { OnOk result (AreWatched task.now (length task.now.ops) rows.new) }
{
    let last = task.facts.len();
    let ops = task.ops.len() as u32;
    for op in 0..ops {
        let place = place_for(rows, task.ops.at(op as usize).pre.yes.slice(), last);
        put(rows, place, op)?;
    }
    Ok(())
}

// So many empty rows.
fn empty_rows(alloc: Global, count: usize) -> Result<Vec<Row<u32>>, Memory>
    ensures long { IfOk result (λ rows. length rows.items ≡ count) }
    ensures empty { IfOk result (λ rows. (place : ℕ) → row rows.items place ≡ []) }
{
    let mut rows = Vec::with_capacity(alloc, count)?;
    for _ in 0..count {
        rows.push(Row::new(alloc))?;
    }
    Ok(rows)
}

// Sets the bits of some numbers.
fn set_all(bits: &mut Bits, numbers: &[u32])
    requires { (k : ℕ) → Member numbers.now k → k < length bits.old }
    ensures len { length bits.new ≡ length bits.old }
    ensures kept { (k : ℕ) → slice_get bits.old k ≡ Some true → slice_get bits.new k ≡ Some true }
    ensures all { (k : ℕ) → Member numbers.now k → slice_get bits.new k ≡ Some true }
{
    for number in numbers {
        bits.set(*number);
    }
}

// Sets the bits of the operators in the rows of the facts that hold, and in the last row.
fn find(task: &Task, rows: &[Row<u32>], state: &State, bits: &mut Bits)
    requires fit { IsFit task.now }
    requires watched { AreWatched task.now (length task.now.ops) rows.now }
    requires of_task { state.now.facts ≡ length task.now.facts }
    requires long { length bits.old ≡ length task.now.ops }
    ensures len { length bits.new ≡ length bits.old }
    ensures facts { (f : ℕ) (k : ℕ) → f < length task.now.facts → has state.now.hold f ≡ true → Member (row rows.now f) k → slice_get bits.new k ≡ Some true }
    ensures last { (k : ℕ) → Member (row rows.now (length task.now.facts)) k → slice_get bits.new k ≡ Some true }
{
    let facts = task.facts.len() as u32;
    for fact in 0..facts {
        if state.holds(fact) {
            set_all(bits, row(rows, fact as usize));
        }
    }
    set_all(bits, row(rows, facts as usize));
}

impl Watch {
    /// The operators of a task.
    pub(crate) fn of(alloc: Global, task: &Task) -> Result<Watch, Memory>
        requires { IsFit task.now }
        ensures { IfOk result (λ watch. AreWatched task.now (length task.now.ops) watch.rows.items) }
    {
        let mut rows = empty_rows(alloc, task.facts.len() + 1)?;
        put_all(task, &mut rows)?;
        Ok(Watch { rows })
    }

    /// A bit for each operator, which is set for all that are applicable in the state.
    pub(crate) fn ready(&self, alloc: Global, task: &Task, state: &State) -> Result<Bits, Memory>
        requires fit { IsFit task.now }
        requires watched { AreWatched task.now (length task.now.ops) self.now.rows.items }
        requires of_task { state.now.facts ≡ length task.now.facts }
        ensures len { IfOk result (λ bits. length bits ≡ length task.now.ops) }
        ensures found { IfOk result (λ bits. (k : ℕ) → can task.now k state.now ≡ true → slice_get bits k ≡ Some true) }
    {
        let mut bits = Bits::new(alloc, task.ops.len() as u32)?;
        find(task, &self.rows, state, &mut bits);
        Ok(bits)
    }
}
