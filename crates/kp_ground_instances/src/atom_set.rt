ghost use Rattle.std.specs.Prelude.{◌≡◌, [], OnOk};
ghost use Rattle.kp_ground_instances.specs.StaticTables.{has_atom, with_atom};

use indexmap::IndexSet;
use kp_base::Memory;
use std::alloc::Global;
use std::marker::Model;

/// Atoms, each a predicate's number with its objects.
#[derive(Drop)]
pub struct AtomSet<'a> {
    set: IndexSet<(u32, &'a [u32])>,
}

impl<'a> Model for AtomSet<'a> {
    ghost use Rattle.std.specs.Prelude.{List, ℕ, map};

    ghost Value = { List (ℕ × List ℕ) };

    ghost view = { λ s. map (λ k. (k.0, k.1.now)) s.set.keys };
}

impl<'a> AtomSet<'a> {
    /// No atoms.
    pub fn new(alloc: Global) -> AtomSet<'a>
        ensures { result ≡ [] }
    {
        AtomSet {
            set: IndexSet::new(alloc),
        }
    }

    /// Adds an atom, where it is new.
    pub fn insert(&mut self, pred: u32, objects: &'a [u32]) -> Result<(), Memory>
        ensures { OnOk result (self.new ≡ with_atom self.old (pred, objects.now)) }
    {
        self.set.insert((pred, objects))?;
        Ok(())
    }

    /// Whether the atom is one of them.
    pub fn has(&self, pred: u32, objects: &[u32]) -> bool
        ensures { result ≡ has_atom self.now pred objects.now }
    {
        self.set.contains(&(pred, objects))
    }
}
