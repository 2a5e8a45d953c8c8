//! Which effects are to be looked at again after pairs were removed. It decides what is looked at and when, and no
//! clause speaks of it.

use crate::outline::{Outline, block};
use kp_base::{AtomId, Lit, Memory};
use kp_bits::{has_bit, with_bit};
use kp_clash_exclusive::{Pairs, words_of};
use std::alloc::Global;

/// Pairs that were removed; or all effects. And the outline of those that are left.
#[derive(Drop)]
pub struct Touched {
    words: usize,
    // A row of bits for each atom: with which atoms a pair of it was removed.
    rows: Vec<u64>,
    // In which blocks the row of the atom has bits.
    blocks: Vec<u64>,
    is_some: bool,
    is_all: bool,
    pub(crate) outline: Outline,
}

impl Touched {
    /// No pairs of so many atoms.
    pub fn new(alloc: Global, atoms: u32) -> Result<Touched, Memory> {
        let outline = Outline::new(alloc, atoms)?;
        Touched::with(alloc, atoms, outline)
    }

    // The same where there is room for an outline.
    fn with(alloc: Global, atoms: u32, outline: Outline) -> Result<Touched, Memory> {
        let words = words_of(atoms) as usize;
        let rows = vec![in alloc; 0u64; (atoms as usize).wrapping_mul(words)]?;
        let blocks = vec![in alloc; 0u64; atoms as usize]?;
        Ok(Touched {
            words,
            rows,
            blocks,
            is_some: false,
            is_all: false,
            outline,
        })
    }

    /// From now on all effects, as before anything was looked at.
    pub fn note_all(&mut self) {
        self.is_some = true;
        self.is_all = true;
    }

    /// Whether anything is to be looked at.
    pub fn is_some(&self) -> bool {
        self.is_some
    }

    fn place(&self, p: AtomId, k: u32) -> usize {
        (p.0 as usize)
            .wrapping_mul(self.words)
            .wrapping_add(k as usize)
    }

    // Notes the second atom in the row of the first.
    fn note_in(&mut self, p: AtomId, q: AtomId) {
        let place = self.place(p, q.0 / 64);
        if let Some(word) = self.rows.get_mut(place) {
            *word = with_bit(*word, q.0 % 64);
        }
        if let Some(blocks) = self.blocks.get_mut(p.0 as usize) {
            *blocks |= block(q.0 / 64);
        }
    }

    /// Notes a pair that was removed.
    pub fn note(&mut self, pairs: &Pairs, p: AtomId, q: AtomId) {
        self.note_in(p, q);
        self.note_in(q, p);
        self.outline.note(pairs, p, q);
        self.is_some = true;
    }

    /// In which blocks there are atoms of which the literal's atom was a pair.
    pub(crate) fn blocks_of(&self, lit: &Lit) -> u64 {
        match self.blocks.get(lit.atom.0 as usize) {
            Some(blocks) => { if lit.positive { *blocks } else { 0 } }
            None => 0,
        }
    }

    // Whether a pair of the literal's atom was removed.
    fn has(&self, lit: &Lit) -> bool {
        self.blocks_of(lit) != 0
    }

    /// Which of the 64 atoms from 64 k on were a pair with the literal's atom.
    pub(crate) fn word(&self, lit: &Lit, k: u32) -> u64 {
        if !self.has(lit) {
            return 0;
        }
        match self.rows.get(self.place(lit.atom, k)) {
            Some(word) => *word,
            None => 0,
        }
    }

    /// Whether an effect with these literals among its conditions is to be looked at: one of them may have excluded an
    /// atom by a pair that was removed.
    pub(crate) fn meets(&self, lits: &[Lit]) -> bool {
        self.is_all || lits.iter().any(|l| self.has(l))
    }

    // Whether the literal's atom was a pair with that of one of these.
    fn joins_one(&self, lit: &Lit, lits: &[Lit]) -> bool {
        lits.iter().any(|l| l.positive && has_bit(self.word(lit, l.atom.0 / 64), l.atom.0 % 64))
    }

    /// Whether an effect with these literals for its condition is to be looked at with all others: it may not have fired
    /// before, or the precondition excluded others.
    pub(crate) fn is_whole(&self, pre: &[Lit], cond: &[Lit]) -> bool {
        self.meets(pre) || cond.iter().any(|l| self.joins_one(l, cond))
    }

    // In which blocks there are atoms that some literal excluded before.
    fn freed_by(&self, lits: &[Lit]) -> u64 {
        let mut freed = 0u64;
        for lit in lits {
            freed |= self.blocks_of(lit);
        }
        freed
    }

    /// In which blocks there may be atoms that an effect of these literals is to be looked at with: those that a literal
    /// excluded before, or all if it may not have fired before, or has too many literals to look through.
    pub(crate) fn freed(&self, pre: &[Lit], cond: &[Lit]) -> u64 {
        if self.is_all || pre.len() > 8 || self.is_whole(&[], cond) {
            u64::MAX
        } else {
            self.freed_by(pre) | self.freed_by(cond)
        }
    }

    fn clear_row(&mut self, p: usize) {
        for k in 0..self.words {
            if let Some(word) = self
                .rows
                .get_mut(p.wrapping_mul(self.words).wrapping_add(k))
            {
                *word = 0;
            }
        }
    }

    fn clear_atom(&mut self, p: usize) {
        if let Some(blocks) = self.blocks.get_mut(p) {
            if *blocks != 0 {
                *blocks = 0;
                self.clear_row(p);
            }
        }
    }

    /// Forgets all.
    pub(crate) fn clear(&mut self) {
        for p in 0..self.blocks.len() {
            self.clear_atom(p);
        }
        self.is_some = false;
        self.is_all = false;
    }
}
