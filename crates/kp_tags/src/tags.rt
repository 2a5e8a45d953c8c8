ghost use Rattle.std.specs.Prelude.{◌≡◌, [], fold, length, map, IfOk, OnOk};
ghost use Rattle.std.specs.List.{flat_map};
ghost use Rattle.kp_base.specs.LitSet.{IsAscending};
ghost use Rattle.kp_tags.specs.MergeTables.{number_in, used_tags};
ghost use Rattle.kp_tags.specs.Kept.{AreSets, with_tag};

use indexmap::IndexSet;
use kp_base::{Lit, LitSet, Memory};
use kp_tags_files::FileMerge;
use std::alloc::Global;
use std::marker::Model;

/// A position as a number. More than a `u32` holds is want of memory.
pub fn as_number(place: usize) -> Result<u32, Memory>
    ensures { IfOk result (λ n. n ≡ place) }
{
    if place > u32::MAX as usize {
        return Err(Memory);
    }
    Ok(place as u32)
}

// The literals of a tag, ascending.
fn literals(alloc: Global, tag: &LitSet) -> Result<Vec<Lit>, Memory>
    ensures value { IfOk result (λ lits. lits.items ≡ tag.now) }
    ensures ascending { IsAscending tag.now }
{
    Ok(tag.slice().to_vec(alloc)?)
}

/// Tags, each once. The number of a tag is its position.
#[derive(Drop)]
pub struct Tags {
    set: IndexSet<Vec<Lit>>,
}

impl Model for Tags {
    ghost use Rattle.std.specs.Prelude.{List, map};
    ghost use Rattle.kp_base.specs.declared.lit.Lit.{Lit as Literal};
    ghost use Rattle.kp_tags.specs.Kept.{AreSets};

    ghost Value = { List (List Literal) };

    ghost view = { λ t. map (λ k. k.items) t.set.keys };

    ghost invariant = { λ t. AreSets (map (λ k. k.items) t.set.keys) };
}

impl Tags {
    // No tags.
    fn new(alloc: Global) -> Tags
        ensures { result ≡ [] }
    {
        Tags {
            set: IndexSet::new(alloc),
        }
    }

    /// How many there are.
    pub fn len(&self) -> usize
        ensures { result ≡ length self.now }
    {
        self.set.len()
    }

    /// The literals of each, ascending.
    pub fn slice(&self) -> &[Vec<Lit>]
        ensures value { map (λ k. k.items) result.now ≡ self.now }
        ensures sets { AreSets self.now }
    {
        self.set.as_slice()
    }

    // Adds a tag, where it is new.
    fn insert(&mut self, alloc: Global, tag: &LitSet) -> Result<(), Memory>
        ensures { OnOk result (self.new ≡ with_tag self.old tag.now) }
    {
        self.set.insert(literals(alloc, tag)?)?;
        Ok(())
    }

    // Adds tags, each where it is new.
    fn insert_all(&mut self, alloc: Global, tags: &[LitSet]) -> Result<(), Memory>
        ensures { OnOk result (self.new ≡ fold with_tag self.old tags.now) }
    {
        for tag in tags {
            self.insert(alloc, tag)?;
        }
        Ok(())
    }

    // Adds the tags of merges, each where it is new.
    fn insert_used(&mut self, alloc: Global, merges: &[FileMerge]) -> Result<(), Memory>
        ensures { OnOk result (self.new ≡ fold with_tag self.old (flat_map (λ m. m.tags) merges.now)) }
    {
        for merge in merges {
            self.insert_all(alloc, merge.tags.slice())?;
        }
        Ok(())
    }

    /// The tags of merges, in the order of their first use, behind the empty one.
    pub fn used(alloc: Global, merges: &[FileMerge]) -> Result<Tags, Memory>
        ensures { IfOk result (λ tags. tags ≡ used_tags merges.now) }
    {
        let mut tags = Tags::with_empty(alloc)?;
        tags.insert_used(alloc, merges)?;
        Ok(tags)
    }

    // The empty tag alone.
    fn with_empty(alloc: Global) -> Result<Tags, Memory>
        ensures { IfOk result (λ tags. tags ≡ with_tag [] []) }
    {
        let mut tags = Tags::new(alloc);
        let empty = LitSet::new(alloc);
        let inserted = tags.insert(alloc, &empty);
        drop(empty);
        inserted?;
        Ok(tags)
    }

    // The position of a tag; how many tags there are, where it is none of them.
    fn place(&self, tag: &LitSet) -> usize
        ensures { result ≡ number_in self.now tag.now }
    {
        match self.set.get_index_of(tag.slice()) {
            Some(place) => place,
            None => self.set.len(),
        }
    }

    /// The number of a tag; how many tags there are, where it is none of them.
    pub fn number(&self, tag: &LitSet) -> Result<u32, Memory>
        ensures { IfOk result (λ n. n ≡ number_in self.now tag.now) }
    {
        let number = as_number(self.place(tag))?;
        Ok(number)
    }
}
