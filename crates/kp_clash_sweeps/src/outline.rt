//! Where rows of pairs have bits, by blocks of 64 atoms. It decides what is looked at, and no clause speaks of it.

use kp_base::{AtomId, Lit, Memory};
use kp_bits::{are_apart, with_bit};
use kp_clash_exclusive::{Pairs, WORDS, words_of};
use std::alloc::Global;

/// Two words for each atom, with a bit for each block: in which blocks there are atoms that are its pairs, and in which
/// there are others. Word k of a row is of block k modulo 64, so beyond 4,096 atoms blocks share a bit.
#[derive(Drop)]
pub(crate) struct Outline {
    some: Vec<u64>,
    others: Vec<u64>,
}

/// The block with the word at place k, as a bit.
pub(crate) fn block(k: u32) -> u64 {
    with_bit(0, k % 64)
}

// The word of the atom, or no bit.
fn get(words: &[u64], p: AtomId) -> u64 {
    match words.get(p.0 as usize) {
        Some(word) => *word,
        None => 0,
    }
}

// Makes the words those of the others.
fn copy(words: &mut [u64], others: &[u64]) {
    for k in 0..words.len() {
        if let Some(other) = others.get(k) {
            words[k] = *other;
        }
    }
}

// Sets the bits in the word of the atom.
fn put(words: &mut [u64], p: AtomId, bits: u64) {
    if let Some(word) = words.get_mut(p.0 as usize) {
        *word |= bits;
    }
}

/// How many words of a row are of one block, at most.
pub(crate) fn turns(atoms: u32) -> u32 {
    words_of(atoms).div_ceil(64)
}

// Whether the atom is a pair with one of these of this block.
fn meets_in(pairs: &Pairs, p: AtomId, words: &[u64; WORDS], block: u32) -> bool {
    for turn in 0..turns(pairs.atoms()) {
        let k = turn.wrapping_mul(64).wrapping_add(block);
        if let Some(word) = words.get(k as usize) {
            if !are_apart(pairs.row_word(p, k), *word) {
                return true;
            }
        }
    }
    false
}

impl Outline {
    /// The outline of no pairs of so many atoms.
    pub(crate) fn new(alloc: Global, atoms: u32) -> Result<Outline, Memory> {
        let some = vec![in alloc; 0u64; atoms as usize]?;
        let others = vec![in alloc; u64::MAX; atoms as usize]?;
        Ok(Outline { some, others })
    }

    /// Makes it the same as the other.
    pub(crate) fn follow(&mut self, other: &Outline) {
        copy(&mut self.some, &other.some);
        copy(&mut self.others, &other.others);
    }

    // Notes what is in the row of the atom.
    fn fill_row(&mut self, pairs: &Pairs, p: AtomId) {
        let mut some = 0u64;
        let mut others = 0u64;
        for k in 0..words_of(pairs.atoms()) {
            let word = pairs.row_word(p, k);
            if word != 0 {
                some |= block(k);
            }
            if word != u64::MAX {
                others |= block(k);
            }
        }
        if let Some(word) = self.some.get_mut(p.0 as usize) {
            *word = some;
        }
        if let Some(word) = self.others.get_mut(p.0 as usize) {
            *word = others;
        }
    }

    /// Makes it that of the pairs.
    pub(crate) fn fill(&mut self, pairs: &Pairs) {
        for p in 0..pairs.atoms() {
            self.fill_row(pairs, AtomId(p));
        }
    }

    // Notes that the second atom isn't in the row of the first any more.
    fn note_in(&mut self, pairs: &Pairs, p: AtomId, q: AtomId) {
        let k = q.0 / 64;
        put(&mut self.others, p, block(k));
        if words_of(pairs.atoms()) <= 64 && pairs.row_word(p, k) == 0 {
            if let Some(word) = self.some.get_mut(p.0 as usize) {
                *word &= !block(k);
            }
        }
    }

    /// Notes that the pair was removed.
    pub(crate) fn note(&mut self, pairs: &Pairs, p: AtomId, q: AtomId) {
        self.note_in(pairs, p, q);
        self.note_in(pairs, q, p);
    }

    /// In which blocks there are atoms that are pairs with this one.
    pub(crate) fn pairs_of(&self, p: AtomId) -> u64 {
        get(&self.some, p)
    }

    /// In which blocks there may be atoms that none of these literals excludes.
    pub(crate) fn left_by(&self, lits: &[Lit]) -> u64 {
        let mut left = u64::MAX;
        if lits.len() <= 8 {
            for lit in lits {
                if lit.positive {
                    left &= get(&self.others, lit.atom);
                }
            }
        }
        left
    }

    /// Whether the atom may be a pair with one of these, which are in these blocks.
    pub(crate) fn meets(
        &self,
        pairs: &Pairs,
        p: AtomId,
        words: &[u64; WORDS],
        blocks: u64,
    ) -> bool {
        let mut both = self.pairs_of(p) & blocks;
        for _ in 0..64 {
            if both == 0 {
                return false;
            }
            if meets_in(pairs, p, words, both.trailing_zeros()) {
                return true;
            }
            both &= both.wrapping_sub(1);
        }
        false
    }
}
