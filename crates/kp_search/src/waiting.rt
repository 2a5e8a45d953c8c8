ghost use Rattle.std.specs.Prelude.{◌≡◌, ◌+◌, [], length, OnOk, IfSome, IfNone, if◌then◌else◌};
ghost use Rattle.kp_search.specs.Queue.{same_key, times, PopsFirst};

use crate::Key;
use kp_base::Memory;
use std::alloc::Global;
use std::cmp::Reverse;
use std::collections::BinaryHeap;
use std::marker::Model;

/// The keys of the entries that wait. Contracts see a list of them, in no particular order.
#[derive(Drop)]
pub struct Waiting {
    heap: BinaryHeap<Reverse<Key>>,
}

impl Model for Waiting {
    ghost use Rattle.std.specs.Prelude.{List};
    ghost use Rattle.std.specs.BinaryHeap.{IsHeap, heap_items};
    ghost use Rattle.kp_search.specs.declared.key.Key.{Key};
    ghost use Rattle.kp_search.specs.Heaped.{later, keys_of};

    ghost Value = { List Key };

    ghost view = { λ w. keys_of (heap_items w.heap) };

    ghost invariant = { λ w. IsHeap later (heap_items w.heap) };
}

impl Waiting {
    /// None.
    pub fn new(alloc: Global) -> Waiting
        ensures { result ≡ [] }
    {
        Waiting {
            heap: BinaryHeap::new(alloc),
        }
    }

    /// Adds a key.
    pub fn push(&mut self, key: Key) -> Result<(), Memory>
        ensures adds { OnOk result ((y : _) → times self.new y ≡ (if same_key y key then 1 else 0) + times self.old y) }
        ensures len { OnOk result (length self.new ≡ length self.old + 1) }
    {
        self.heap.push(Reverse(key))?;
        Ok(())
    }

    /// Takes out the first.
    pub fn pop(&mut self) -> Option<Key>
        ensures some { IfSome result (λ key. PopsFirst self.old key self.new) }
        ensures none { IfNone result (self.old ≡ []) }
    {
        match self.heap.pop() {
            Some(first) => Some(first.0),
            None => None,
        }
    }
}
