//! The order in which rows are closed. It decides how long that takes and nothing else, so no clause says more of it than
//! that it names rows.
ghost use Rattle.std.specs.Prelude.{◌≡◌, ◌<◌, ◌≤◌, ◌+◌, ◌*◌, false, [], length, get_or, IfOk, OnOk, IfSome};
ghost use Rattle.std.specs.List.{All};
ghost use Rattle.kp_relevance.specs.Tabled.{unset, IsSquare, IsWalk};

use kp_base::Memory;
use kp_bits::Bits;
use std::alloc::Global;

// Where a walk against the marks stands: the numbers that it came to, those that it left again, the way to where it is,
// and a row that is written over.
#[derive(Drop)]
struct Walk {
    seen: Bits,
    left: Bits,
    spare: Bits,
    way: Vec<u32>,
}

impl Walk {
    // A walk that came to none of n numbers.
    fn new(alloc: Global, n: u32) -> Result<Walk, Memory>
        ensures { IfOk result (λ w. IsWalk n w.seen w.left w.spare w.way.items []) }
    {
        let seen = Bits::new(alloc, n)?;
        let left = Bits::new(alloc, n)?;
        let spare = Bits::new(alloc, n)?;
        let way = Vec::new(alloc);
        Ok(Walk {
            seen,
            left,
            spare,
            way,
        })
    }
}

// The first number that is marked in the row and is none of these. The spare row is written over.
fn first_other(row: &Bits, these: &Bits, spare: &mut Bits) -> Option<u32>
    requires row { length row.now ≡ length these.now }
    requires spare { length spare.old ≡ length these.now }
    ensures below { IfSome result (λ k. k < length these.now) }
    ensures other { IfSome result (λ k. get_or these.now k false ≡ false) }
    ensures spare { length spare.new ≡ length these.now }
{
    spare.copy_from(these);
    spare.or_with(row);
    spare.first_difference(these)
}

// Leaves a number, which is the next in the order, if the walk has left each number that is marked in its row. Else marks
// lead round, and it isn't named.
fn leave(rows: &[Bits], k: u32, walk: &mut Walk, order: &mut Vec<u32>) -> Result<(), Memory>
    requires square { IsSquare (length rows.now) rows.now }
    requires below { k < length rows.now }
    requires walk { IsWalk (length rows.now) walk.old.seen walk.old.left walk.old.spare walk.old.way.items order.old.items }
    ensures walk { OnOk result (IsWalk (length rows.now) walk.new.seen walk.new.left walk.new.spare walk.new.way.items order.new.items) }
    ensures seen { OnOk result (walk.new.seen ≡ walk.old.seen) }
    ensures way { OnOk result (walk.new.way.items ≡ walk.old.way.items) }
{
    walk.left.set(k);
    if first_other(&rows[k as usize], &walk.left, &mut walk.spare).is_none() {
        order.push(k)?;
    }
    Ok(())
}

// Goes on to a number that leads to this one and was not come to yet; where there is none, leaves this one.
fn step(rows: &[Bits], top: u32, walk: &mut Walk, order: &mut Vec<u32>) -> Result<(), Memory>
    requires square { IsSquare (length rows.now) rows.now }
    requires top { top < length rows.now }
    requires walk { IsWalk (length rows.now) walk.old.seen walk.old.left walk.old.spare walk.old.way.items order.old.items }
    ensures walk { OnOk result (IsWalk (length rows.now) walk.new.seen walk.new.left walk.new.spare walk.new.way.items order.new.items) }
    ensures fewer { OnOk result (2 * unset walk.new.seen + length walk.new.way.items ≤ 2 * unset walk.old.seen + length walk.old.way.items) }
{
    match first_other(&rows[top as usize], &walk.seen, &mut walk.spare) {
        Some(k) => {
            walk.seen.set(k);
            walk.way.push(top)?;
            walk.way.push(k)?;
        }
        None => leave(rows, top, walk, order)?,
    }
    Ok(())
}

// Goes on until all that the walk came to is left.
fn go_on(rows: &[Bits], walk: &mut Walk, order: &mut Vec<u32>) -> Result<(), Memory>
    requires square { IsSquare (length rows.now) rows.now }
    requires walk { IsWalk (length rows.now) walk.old.seen walk.old.left walk.old.spare walk.old.way.items order.old.items }
    ensures { OnOk result (IsWalk (length rows.now) walk.new.seen walk.new.left walk.new.spare walk.new.way.items order.new.items) }
{
    'tops: while let Some(top) = walk.way.pop() {
        step(rows, top, walk, order)?;
    }
    Ok(())
}

// Walks from a number, if it was not come to yet.
fn start(rows: &[Bits], j: u32, walk: &mut Walk, order: &mut Vec<u32>) -> Result<(), Memory>
    requires square { IsSquare (length rows.now) rows.now }
    requires j { j < length rows.now }
    requires walk { IsWalk (length rows.now) walk.old.seen walk.old.left walk.old.spare walk.old.way.items order.old.items }
    ensures { OnOk result (IsWalk (length rows.now) walk.new.seen walk.new.left walk.new.spare walk.new.way.items order.new.items) }
{
    if !walk.seen.get(j) {
        walk.seen.set(j);
        walk.way.push(j)?;
        go_on(rows, walk, order)?;
    }
    Ok(())
}

/// Numbers of rows, what leads to a number mostly before it. Numbers to which marks lead round are left out, but for one
/// or some of them: the search for those ends soon once the rows of these are closed.
pub(crate) fn closing_order(alloc: Global, rows: &[Bits], n: u32) -> Result<Vec<u32>, Memory>
    requires many { length rows.now ≡ n }
    requires square { IsSquare n rows.now }
    ensures { IfOk result (λ order. All (λ j. j < n) order.items) }
{
    let mut order = Vec::new(alloc);
    let mut walk = Walk::new(alloc, n)?;
    for j in 0..n {
        start(rows, j, &mut walk, &mut order)?;
    }
    Ok(order)
}
