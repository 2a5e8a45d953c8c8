//! Closing one row, by a search for what leads to what is in it.
ghost use Rattle.std.specs.Prelude.{◌≡◌, ◌<◌, Bool, List, length, IfOk};
ghost use Rattle.kp_relevance.specs.Tabled.{unset, IsSquare, IsClosedRow, AreClosedRows, Grows, IsFollowed, IsNext, ClosesRow, AreSpare};

use crate::lone::note_lone_rows;
use kp_base::Memory;
use kp_bits::Bits;
use std::alloc::Global;

/// Rows that a search writes over, and the numbers in whose rows no other is marked: there is nothing to follow from them.
#[derive(Drop)]
pub(crate) struct Spare {
    lone: Bits,
    row: Bits,
    done: Bits,
}

// Two rows of n bits.
fn two_rows(alloc: Global, n: u32) -> Result<(Bits, Bits), Memory>
    ensures { IfOk result (λ rows. (length rows.0 ≡ n) × (length rows.1 ≡ n)) }
{
    let row = Bits::new(alloc, n)?;
    let done = Bits::new(alloc, n)?;
    Ok((row, done))
}

impl Spare {
    /// Rows of n bits, and no numbers yet.
    pub(crate) fn new(alloc: Global, n: u32) -> Result<Spare, Memory>
        ensures { IfOk result (λ s. (rows : List (List Bool)) → AreSpare n rows s.lone s.row s.done) }
    {
        let lone = Bits::new(alloc, n)?;
        let (row, done) = two_rows(alloc, n)?;
        Ok(Spare { lone, row, done })
    }

    /// Notes the numbers in whose rows no other is marked.
    pub(crate) fn note_lone(&mut self, rows: &[Bits], n: u32)
        requires square { IsSquare n rows.now }
        requires spare { AreSpare n rows.now self.old.lone self.old.row self.old.done }
        ensures { AreSpare n rows.now self.new.lone self.new.row self.new.done }
    {
        note_lone_rows(rows, n, &mut self.lone);
    }
}

// Adds to the row what is marked in the row of a number in it, and notes that the number is done. In a closed row is all
// that leads to what is in it, so all of that is done then.
fn follow(rows: &[Bits], closed: &Bits, k: u32, row: &mut Bits, done: &mut Bits)
    requires square { IsSquare (length rows.now) rows.now }
    requires wide { length closed.now ≡ length rows.now }
    requires closed { AreClosedRows (length rows.now) closed.now rows.now }
    requires followed { IsFollowed (length rows.now) rows.now row.old done.old }
    requires next { IsNext (length rows.now) row.old done.old k }
    ensures grows { Grows (length rows.now) rows.now row.old row.new }
    ensures followed { IsFollowed (length rows.now) rows.now row.new done.new }
    ensures fewer { unset done.new < unset done.old }
{
    let more = &rows[k as usize];
    row.or_with(more);
    done.set(k);
    if closed.get(k) {
        done.or_with(more);
    }
}

// Follows what is in the row, until all is done.
fn follow_all(rows: &[Bits], closed: &Bits, row: &mut Bits, done: &mut Bits)
    requires square { IsSquare (length rows.now) rows.now }
    requires wide { length closed.now ≡ length rows.now }
    requires closed { AreClosedRows (length rows.now) closed.now rows.now }
    requires followed { IsFollowed (length rows.now) rows.now row.old done.old }
    ensures grows { Grows (length rows.now) rows.now row.old row.new }
    ensures closed { IsClosedRow (length rows.now) rows.now row.new }
    ensures wide { length done.new ≡ length rows.now }
{
    'next: while let Some(k) = row.first_difference(done) {
        follow(rows, closed, k, row, done);
    }
}

/// Closes row j, where those rows are closed.
pub(crate) fn close_row(rows: &mut [Bits], j: usize, closed: &Bits, spare: &mut Spare)
    requires square { IsSquare (length rows.old) rows.old }
    requires wide { length closed.now ≡ length rows.old }
    requires closed { AreClosedRows (length rows.old) closed.now rows.old }
    requires row { j < length rows.old }
    requires spare { AreSpare (length rows.old) rows.old spare.old.lone spare.old.row spare.old.done }
    ensures closes { ClosesRow (length rows.old) j rows.old rows.new }
    ensures spare { AreSpare (length rows.old) rows.new spare.new.lone spare.new.row spare.new.done }
{
    spare.row.copy_from(&rows[j]);
    spare.done.copy_from(&spare.lone);
    spare.done.and_with(&spare.row);
    follow_all(rows, closed, &mut spare.row, &mut spare.done);
    rows[j].copy_from(&spare.row);
}
