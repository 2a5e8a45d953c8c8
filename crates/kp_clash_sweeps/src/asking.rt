//! Which adds of an action have an atom among their conditions. It decides what is looked at and when, and no clause
//! speaks of it.

use kp_base::{Action, AtomId, Effect, Ground, Lit, Memory};
use std::alloc::Global;

// No place of the list.
const NONE: u32 = u32::MAX;

/// For each atom a list of the places of effects, each with where the list goes on.
#[derive(Drop)]
pub struct Asking {
    heads: Vec<u32>,
    // Where the list of those begins that have no atom.
    free: u32,
    items: Vec<(u32, u32)>,
    used: u32,
}

// How many literals the conditions of the action have, and one more for each.
fn size_of(action: &Action) -> usize {
    let mut size = 0usize;
    for effect in action.effects.slice() {
        size = size.wrapping_add(effect.cond.slice().len()).wrapping_add(1);
    }
    size
}

// The same of the action where it is the most.
fn greatest_size(ground: &Ground) -> usize {
    let mut greatest = 0usize;
    for action in ground.actions.slice() {
        let size = size_of(action);
        if greatest < size {
            greatest = size;
        }
    }
    greatest
}

impl Asking {
    /// Room for any action of the problem, and no effects.
    pub fn new(alloc: Global, ground: &Ground) -> Result<Asking, Memory> {
        let heads = vec![in alloc; NONE; ground.atoms.len()]?;
        let items = vec![in alloc; (0u32, NONE); greatest_size(ground)]?;
        Ok(Asking {
            heads,
            free: NONE,
            items,
            used: 0,
        })
    }

    fn note_lit(&mut self, lit: &Lit, place: u32) {
        if !lit.positive {
            return;
        }
        let used = self.used;
        if let Some(head) = self.heads.get_mut(lit.atom.0 as usize) {
            if let Some(item) = self.items.get_mut(used as usize) {
                *item = (place, *head);
                *head = used;
                self.used = used.wrapping_add(1);
            }
        }
    }

    fn note_free(&mut self, place: u32) {
        let used = self.used;
        if let Some(item) = self.items.get_mut(used as usize) {
            *item = (place, self.free);
            self.free = used;
            self.used = used.wrapping_add(1);
        }
    }

    fn note(&mut self, effect: &Effect, place: u32) {
        let cond = effect.cond.slice();
        if effect.result.positive {
            for lit in cond {
                self.note_lit(lit, place);
            }
        }
        if effect.result.positive && !cond.iter().any(|l| l.positive) {
            self.note_free(place);
        }
    }

    /// Notes the effects of the action.
    pub(crate) fn fill(&mut self, action: &Action) {
        let mut place = 0u32;
        for effect in action.effects.slice() {
            self.note(effect, place);
            place = place.wrapping_add(1);
        }
    }

    fn forget(&mut self, lits: &[Lit]) {
        for lit in lits {
            if let Some(head) = self.heads.get_mut(lit.atom.0 as usize) {
                *head = NONE;
            }
        }
    }

    /// Forgets the effects of the action.
    pub(crate) fn empty(&mut self, action: &Action) {
        for effect in action.effects.slice() {
            self.forget(effect.cond.slice());
        }
        self.free = NONE;
        self.used = 0;
    }

    /// Where the list of those begins that have no atom among their conditions.
    pub(crate) fn first_free(&self) -> usize {
        self.free as usize
    }

    /// Where the list of the atom begins.
    pub(crate) fn first(&self, atom: AtomId) -> usize {
        match self.heads.get(atom.0 as usize) {
            Some(head) => *head as usize,
            None => NONE as usize,
        }
    }

    /// The place of an effect, and where the list goes on.
    pub(crate) fn at(&self, item: usize) -> Option<(usize, usize)> {
        match self.items.get(item) {
            Some((place, next)) => Some((*place as usize, *next as usize)),
            None => None,
        }
    }
}
