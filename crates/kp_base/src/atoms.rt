ghost use Rattle.std.specs.Prelude.{◌≡◌, true, [], length, map, IfOk, IfSome, OnOk};
ghost use Rattle.kp_base.specs.Atoms.{atom, has_atom, number_of, kept_atom, with_atom, with_atom_within, IsPlaced, IsSortOf};

use crate::atom::AtomRef;
use crate::memory::Memory;
use crate::recent::Recent;
use indexmap::IndexSet;
use std::alloc::Global;
use std::marker::Model;

/// Ground atoms by the numbers of their predicates and objects, each once. The number of an atom is its position.
#[derive(Drop)]
pub struct Atoms {
    set: IndexSet<(u32, Vec<u32>)>,
    recent: Recent,
}

impl Model for Atoms {
    ghost use Rattle.std.specs.Prelude.{List, ◌≤◌, map, length};
    ghost use Rattle.kp_base.specs.Atoms.{Atom, kept_atom};

    ghost Value = { List Atom };

    ghost view = { λ a. map kept_atom a.set.keys };

    ghost invariant = { λ a. length a.set.keys ≤ 4294967295 };
}

// An atom, as the set keeps it.
fn key_of(alloc: Global, wanted: &AtomRef) -> Result<(u32, Vec<u32>), Memory>
    ensures { IfOk result (λ key. kept_atom key ≡ atom wanted.now.pred wanted.now.objects.now) }
{
    Ok((wanted.pred, wanted.objects.to_vec(alloc)?))
}

impl Atoms {
    /// No atoms.
    pub fn new(alloc: Global) -> Atoms
        ensures { result ≡ [] }
    {
        Atoms {
            set: IndexSet::new(alloc),
            recent: Recent::new(),
        }
    }

    /// How many there are.
    pub fn len(&self) -> u32
        ensures { result ≡ length self.now }
    {
        self.set.len() as u32
    }

    // Adds an atom that is new. More atoms than a `u32` counts are want of memory.
    fn push(&mut self, alloc: Global, wanted: &AtomRef) -> Result<(), Memory>
        ensures { OnOk result (self.new ≡ with_atom self.old (atom wanted.now.pred wanted.now.objects.now)) }
    {
        if self.set.len() >= u32::MAX as usize {
            return Err(Memory);
        }
        self.set.insert(key_of(alloc, wanted)?)?;
        Ok(())
    }

    // Whether the atom stands at this place.
    fn is_at(&self, place: u32, wanted: &AtomRef) -> bool
        ensures { result ≡ true → IsPlaced self.now place (atom wanted.now.pred wanted.now.objects.now) }
    {
        match self.set.as_slice().get(place as usize) {
            Some(key) => wanted.names(key),
            None => false,
        }
    }

    // The place of the atom, where it is this or the next.
    fn near(&self, place: u32, wanted: &AtomRef) -> Option<u32>
        ensures { IfSome result (λ n. IsPlaced self.now n (atom wanted.now.pred wanted.now.objects.now)) }
    {
        if self.is_at(place, wanted) {
            return Some(place);
        }
        let next = place.saturating_add(1);
        if self.is_at(next, wanted) {
            return Some(next);
        }
        None
    }

    // Adds an atom, where it is new, which is looked for by hash.
    fn insert_far(&mut self, alloc: Global, wanted: &AtomRef) -> Result<(), Memory>
        ensures { OnOk result (self.new ≡ with_atom self.old (atom wanted.now.pred wanted.now.objects.now)) }
    {
        match self.set.get_index_of(wanted) {
            Some(place) => {
                self.recent.note(wanted.pred, place as u32);
                Ok(())
            }
            None => {
                self.recent.note(wanted.pred, self.set.len() as u32);
                self.push(alloc, wanted)
            }
        }
    }

    // Adds an atom, where it is new.
    fn insert(&mut self, alloc: Global, wanted: &AtomRef) -> Result<(), Memory>
        ensures { OnOk result (self.new ≡ with_atom self.old (atom wanted.now.pred wanted.now.objects.now)) }
    {
        match self.near(self.recent.of(wanted.pred), wanted) {
            Some(place) => {
                self.recent.note(wanted.pred, place);
                Ok(())
            }
            None => self.insert_far(alloc, wanted),
        }
    }

    /// Adds the atom of this predicate and these objects, where it is new and there are no more atoms than the limit.
    pub fn note(
        &mut self,
        alloc: Global,
        limit: u32,
        pred: u32,
        objects: &[u32],
    ) -> Result<(), Memory>
        ensures { OnOk result (self.new ≡ with_atom_within limit self.old (atom pred objects.now)) }
    {
        if limit < self.len() {
            return Ok(());
        }
        self.insert(alloc, &AtomRef { pred, objects })
    }

    /// Puts the atoms in order.
    pub fn sort(&mut self) -> Result<(), Memory>
        ensures { OnOk result (IsSortOf self.old self.new) }
    {
        self.set.sort_unstable()?;
        Ok(())
    }

    /// Whether the atom of this predicate and these objects is one of them.
    pub fn has(&self, pred: u32, objects: &[u32]) -> bool
        ensures { result ≡ has_atom self.now (atom pred objects.now) }
    {
        self.set.get_index_of(&AtomRef { pred, objects }).is_some()
    }

    /// The number of the atom of this predicate and these objects; how many atoms there are, where it is none of them.
    pub fn place(&self, pred: u32, objects: &[u32]) -> u32
        ensures { result ≡ number_of self.now (atom pred objects.now) }
    {
        match self.set.get_index_of(&AtomRef { pred, objects }) {
            Some(number) => number as u32,
            None => self.set.len() as u32,
        }
    }

    /// The same, where the atom is looked for first at the place of an atom of its predicate that was found last.
    pub fn place_by(&self, recent: &mut Recent, pred: u32, objects: &[u32]) -> u32
        ensures { result ≡ number_of self.now (atom pred objects.now) }
    {
        let place = match self.near(recent.of(pred), &AtomRef { pred, objects }) {
            Some(place) => place,
            None => self.place(pred, objects),
        };
        recent.note(pred, place);
        place
    }

    /// The atoms in order, as the table keeps them.
    pub fn keys(&self) -> &[(u32, Vec<u32>)]
        ensures { map kept_atom result.now ≡ self.now }
    {
        self.set.as_slice()
    }
}
