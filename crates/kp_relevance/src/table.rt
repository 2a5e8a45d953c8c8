//! Rows of bits, one for each literal by its code, and their closing.
ghost use Rattle.std.specs.Prelude.{◌≡◌, ◌<◌, ℕ, Bool, true, false, List, length, get_or, IfOk, OnOk};
ghost use Rattle.std.specs.List.{All};
ghost use Rattle.kp_relevance.specs.Tabled.{marked, IsSquare, AreSpare, ClosesRows, Closes};

use crate::order::closing_order;
use crate::reach::{Spare, close_row};
use kp_base::Memory;
use kp_bits::Bits;
use std::alloc::Global;

/// n rows of n bits, none of them set.
pub(crate) fn empty_table(alloc: Global, n: u32) -> Result<Vec<Bits>, Memory>
    ensures square { IfOk result (λ rows. IsSquare n rows.items) }
    ensures clear { IfOk result (λ rows. (j i : ℕ) → marked rows.items j i ≡ false) }
{
    let mut rows = Vec::new(alloc);
    for _ in 0..n {
        rows.push(Bits::new(alloc, n)?)?;
    }
    Ok(rows)
}

// Closes row j and notes it, if it isn't closed yet.
fn close_one(rows: &mut [Bits], j: u32, closed: &mut Bits, spare: &mut Spare)
    requires row { j < length rows.old }
    requires closed { ClosesRows (length rows.old) closed.old rows.old rows.old }
    requires spare { AreSpare (length rows.old) rows.old spare.old.lone spare.old.row spare.old.done }
    ensures closes { (first : List (List Bool)) → ClosesRows (length rows.old) closed.old first rows.old → ClosesRows (length rows.old) closed.new first rows.new }
    ensures closed { get_or closed.new j false ≡ true }
    ensures kept { (i : ℕ) → get_or closed.old i false ≡ true → get_or closed.new i false ≡ true }
    ensures spare { AreSpare (length rows.old) rows.new spare.new.lone spare.new.row spare.new.done }
{
    if !closed.get(j) {
        close_row(rows, j as usize, closed, spare);
        closed.set(j);
    }
}

// Closes these rows, one after another.
fn close_each(rows: &mut [Bits], order: &[u32], closed: &mut Bits, spare: &mut Spare)
    requires order { All (λ j. j < length rows.old) order.now }
    requires closed { ClosesRows (length rows.old) closed.old rows.old rows.old }
    requires spare { AreSpare (length rows.old) rows.old spare.old.lone spare.old.row spare.old.done }
    ensures closes { ClosesRows (length rows.old) closed.new rows.old rows.new }
    ensures spare { AreSpare (length rows.old) rows.new spare.new.lone spare.new.row spare.new.done }
{
    for j in order {
        close_one(rows, *j, closed, spare);
    }
}

// Closes the rows that are left.
fn close_rest(rows: &mut [Bits], n: u32, closed: &mut Bits, spare: &mut Spare)
    requires many { length rows.old ≡ n }
    requires closed { ClosesRows n closed.old rows.old rows.old }
    requires spare { AreSpare n rows.old spare.old.lone spare.old.row spare.old.done }
    ensures { (first : List (List Bool)) → ClosesRows n closed.old first rows.old → Closes n n first rows.new }
{
    for j in 0..n {
        close_one(rows, j, closed, spare);
    }
}

// Closes the rows, these first.
fn close_by(alloc: Global, rows: &mut [Bits], n: u32, order: &[u32]) -> Result<(), Memory>
    requires many { length rows.old ≡ n }
    requires square { IsSquare n rows.old }
    requires order { All (λ j. j < n) order.now }
    ensures { OnOk result (Closes n n rows.old rows.new) }
{
    let mut spare = Spare::new(alloc, n)?;
    let mut closed = Bits::new(alloc, n)?;
    spare.note_lone(rows, n);
    close_each(rows, order, &mut closed, &mut spare);
    close_rest(rows, n, &mut closed, &mut spare);
    Ok(())
}

/// Closes the rows: what is marked through a number is marked.
pub(crate) fn close(alloc: Global, rows: &mut [Bits], n: u32) -> Result<(), Memory>
    requires many { length rows.old ≡ n }
    requires square { IsSquare n rows.old }
    ensures { OnOk result (Closes n n rows.old rows.new) }
{
    let order = closing_order(alloc, rows, n)?;
    close_by(alloc, rows, n, &order)
}
