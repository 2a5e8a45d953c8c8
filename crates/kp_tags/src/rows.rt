ghost use Rattle.std.specs.Prelude.{◌≡◌, [], IfOk, OnOk};
ghost use Rattle.kp_base.specs.LitSet.{IsAscending};
ghost use Rattle.kp_base.specs.Entailed.{IsConsistent};
ghost use Rattle.kp_primes.specs.Held.{formula};
ghost use Rattle.kp_tags.specs.Answers.{AreConsistent};
ghost use Rattle.kp_tags.specs.Kept.{AreRows, IsRowOf};

use crate::tags::Tags;
use kp_base::{Lit, LitSet, Memory, Row, TagRow};
use kp_primes::Primes;
use std::alloc::Global;

// A tag with its closure. A consistent tag has one.
fn row(alloc: Global, primes: &Primes, tag: &[Lit]) -> Result<TagRow, Memory>
    requires ascending { IsAscending tag.now }
    requires consistent { IsConsistent (formula primes.now) tag.now }
    ensures { IfOk result (IsRowOf primes.now.atoms (formula primes.now) tag.now) }
{
    let lits = LitSet::of(alloc, tag)?;
    match primes.closure(alloc, &lits)? {
        Some(closure) => Ok(row_with(lits, closure)),
        None => Err(Memory),
    }
}

// A tag with this closure.
fn row_with(lits: LitSet, closure: LitSet) -> TagRow
    ensures lits { result.lits ≡ lits }
    ensures closure { result.closure ≡ closure }
    ensures ascending { IsAscending closure }
{
    closure.slice();
    TagRow { lits, closure }
}

// Puts the tags with their closures into a row that has none yet.
fn fill(alloc: Global, primes: &Primes, tags: &Tags, rows: &mut Row<TagRow>) -> Result<(), Memory>
    requires consistent { AreConsistent (formula primes.now) tags.now }
    requires empty { rows.old ≡ [] }
    ensures { OnOk result (AreRows primes.now.atoms (formula primes.now) tags.now rows.new) }
{
    for tag in tags.slice() {
        rows.push(row(alloc, primes, tag.as_slice())?)?;
    }
    Ok(())
}

/// The tags with their closures. The tags must be consistent.
pub fn rows(alloc: Global, primes: &Primes, tags: &Tags) -> Result<Row<TagRow>, Memory>
    requires { AreConsistent (formula primes.now) tags.now }
    ensures { IfOk result (AreRows primes.now.atoms (formula primes.now) tags.now) }
{
    let mut rows = Row::new(alloc);
    fill(alloc, primes, tags, &mut rows)?;
    Ok(rows)
}
