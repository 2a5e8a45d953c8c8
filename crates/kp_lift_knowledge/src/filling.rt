//! What is known at the start: the closures of the tags.
ghost use Rattle.std.specs.Prelude.{◌≡◌, ◌<◌, ◌&&◌, ◌||◌, true, length, nat_eq, slice_get, IfOk};
ghost use Rattle.std.specs.List.{list_all};
ghost use Rattle.kp_base.specs.Lit.{has};
ghost use Rattle.kp_base.specs.Implicates.{are_below};
ghost use Rattle.kp_base.specs.Machine.{closure_of};
ghost use Rattle.kp_lift_knowledge.specs.Known.{known, Starts};
ghost use Rattle.kp_lift_knowledge.specs.Tabled.{Turns};

use crate::rows::Rows;
use kp_base::{Lit, Memory, TagRow, TagTable};
use std::alloc::Global;

// Notes that the literals of a closure are known under a tag.
fn put_closure(table: &mut Rows, t: u32, closure: &[Lit])
    requires tag { t < table.old.tags }
    requires below { are_below table.old.atoms closure.now ≡ true }
    ensures { Turns table.old table.new (λ s l. known table.old s l || (nat_eq s t && has closure.now l)) }
{
    for l in closure {
        table.set(t, *l);
    }
}

// Notes that the literals of each closure are known under its tag.
fn put_closures(table: &mut Rows, tags: &[TagRow])
    requires many { length tags.now ≡ table.old.tags }
    requires few { length tags.now < 4294967296 }
    requires below { list_all (λ row. are_below table.old.atoms row.closure) tags.now ≡ true }
    ensures { Turns table.old table.new (λ t l. known table.old t l || has (closure_of (slice_get tags.now t)) l) }
{
    for t in 0..tags.len() as u32 {
        put_closure(table, t, tags[t as usize].closure.slice());
    }
}

/// What is known under each tag at the start.
pub(crate) fn started(alloc: Global, atoms: u32, table: &TagTable) -> Result<Rows, Memory>
    requires few_atoms { atoms < 2147483648 }
    requires few_tags { length table.now.tags < 4294967296 }
    requires below { list_all (λ row. are_below atoms row.closure) table.now.tags ≡ true }
    ensures { IfOk result (Starts atoms table.now) }
{
    let tags = table.tags.slice();
    let mut rows = Rows::new(alloc, atoms, tags.len() as u32)?;
    put_closures(&mut rows, tags);
    Ok(rows)
}
