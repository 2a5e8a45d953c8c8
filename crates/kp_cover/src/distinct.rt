//! Tags, each once.
ghost use Rattle.std.specs.Prelude.{◌≡◌, [], not, fold, length, IfOk, OnOk};
ghost use Rattle.std.specs.List.{list_any};
ghost use Rattle.kp_base.specs.LitSet.{same_set};
ghost use Rattle.kp_cover.specs.Grown.{added};

use indexmap::IndexSet;
use kp_base::{Lit, LitSet, Memory, Row};
use std::alloc::Global;
use std::marker::Model;

/// Tags, each once. Contracts see the list of them, in the order in which they came.
#[derive(Drop)]
pub struct Tags {
    set: IndexSet<Vec<Lit>>,
}

impl Model for Tags {
    ghost use Rattle.std.specs.Prelude.{List, map};
    ghost use Rattle.kp_base.specs.declared.lit.Lit.{Lit as Literal};

    ghost Value = { List (List Literal) };

    ghost view = { λ t. map (λ k. k.items) t.set.keys };
}

/// The literals of a set, as a vector.
pub(crate) fn literals(alloc: Global, tag: &LitSet) -> Result<Vec<Lit>, Memory>
    ensures { IfOk result (λ lits. lits.items ≡ tag.now) }
{
    Ok(tag.slice().to_vec(alloc)?)
}

impl Tags {
    /// No tags.
    pub fn new(alloc: Global) -> Tags
        ensures { result ≡ [] }
    {
        Tags {
            set: IndexSet::new(alloc),
        }
    }

    /// How many there are.
    pub fn len(&self) -> usize
        ensures { result ≡ length self.now }
    {
        self.set.len()
    }

    /// Adds a tag, where it is new. Whether it is.
    pub fn insert(&mut self, alloc: Global, tag: &LitSet) -> Result<bool, Memory>
        ensures told { IfOk result (λ new. new ≡ not (list_any (same_set tag.now) self.old)) }
        ensures value { OnOk result (self.new ≡ added self.old tag.now) }
    {
        Ok(self.set.insert(literals(alloc, tag)?)?)
    }
}

// Puts a tag behind the others, where it wasn't seen.
fn keep(alloc: Global, seen: &mut Tags, kept: &mut Row<LitSet>, tag: &LitSet) -> Result<(), Memory>
    requires { kept.old ≡ seen.old }
    ensures seen { OnOk result (seen.new ≡ added seen.old tag.now) }
    ensures kept { OnOk result (kept.new ≡ added kept.old tag.now) }
{
    if seen.insert(alloc, tag)? {
        kept.push(tag.copy(alloc)?)?;
    }
    Ok(())
}

/// The tags, each once, where it stands first.
pub(crate) fn distinct(alloc: Global, tags: &[LitSet]) -> Result<Row<LitSet>, Memory>
    ensures { IfOk result (λ kept. kept ≡ fold added [] tags.now) }
{
    let mut seen = Tags::new(alloc);
    let mut kept = Row::new(alloc);
    for tag in tags {
        keep(alloc, &mut seen, &mut kept, tag)?;
    }
    Ok(kept)
}
