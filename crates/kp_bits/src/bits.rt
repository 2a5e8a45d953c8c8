ghost use Rattle.std.specs.Prelude.{◌≡◌, ◌<◌, ◌+◌, ◌*◌, ◌↔◌, ℕ, true, false, Some, length, replicate, set, slice_get, IfOk, IfSome, IfNone, IsTrue};
ghost use Rattle.std.specs.Int.{bit_at};
ghost use Rattle.kp_bits.specs.Rows.{both, either, IsSubset, DifferFirst};

use crate::words::{
    and_words, first_other_bit, has_bit, or_words, same_words, with_bit, without_bit, word_at,
    words_within,
};
use kp_base::Memory;
use std::alloc::Global;
use std::marker::Model;

/// A row of bits, 64 to a word. Contracts see the list of its truth values.
#[derive(Drop)]
pub struct Bits {
    count: u32,
    words: Vec<u64>,
}

impl Model for Bits {
    ghost use Rattle.std.specs.Prelude.{List, Bool};
    ghost use Rattle.kp_bits.specs.Packed.{bits_of, IsPacked};

    ghost Value = { List Bool };

    ghost view = { λ b. bits_of b.count b.words.items };

    ghost invariant = { λ b. IsPacked b.count b.words.items };
}

impl Bits {
    /// A row of n zeros.
    pub fn new(alloc: Global, n: u32) -> Result<Bits, Memory>
        ensures { IfOk result (λ bits. bits ≡ replicate n false) }
    {
        let words = vec![in alloc; 0u64; n.div_ceil(64) as usize]?;
        Ok(Bits { count: n, words })
    }

    /// How many bits the row has.
    pub fn len(&self) -> u32
        ensures { result ≡ length self.now }
    {
        self.count
    }

    /// Sets a bit.
    pub fn set(&mut self, i: u32)
        requires { i < length self.old }
        ensures { self.new ≡ set self.old i true }
    {
        let k = (i / 64) as usize;
        self.words[k] = with_bit(self.words[k], i % 64);
    }

    /// Clears a bit.
    pub fn clear(&mut self, i: u32)
        requires { i < length self.old }
        ensures { self.new ≡ set self.old i false }
    {
        let k = (i / 64) as usize;
        self.words[k] = without_bit(self.words[k], i % 64);
    }

    /// Whether a bit is set.
    pub fn get(&self, i: u32) -> bool
        requires { i < length self.now }
        ensures { slice_get self.now i ≡ Some result }
    {
        has_bit(self.words[(i / 64) as usize], i % 64)
    }

    /// The bits from 64 k on as a word, the first one lowest; past the end of the row none is set.
    pub fn word(&self, k: u32) -> u64
        ensures { (j : ℕ) → j < 64 → (bit_at result j ≡ 1) ↔ (slice_get self.now (k * 64 + j) ≡ Some true) }
    {
        word_at(&self.words, k as usize)
    }

    /// Sets the bits that are set in the other row.
    pub fn or_with(&mut self, other: &Bits)
        requires { length self.old ≡ length other.now }
        ensures { self.new ≡ either self.old other.now }
    {
        or_words(&mut self.words, &other.words);
    }

    /// Clears the bits that aren't set in the other row.
    pub fn and_with(&mut self, other: &Bits)
        requires { length self.old ≡ length other.now }
        ensures { self.new ≡ both self.old other.now }
    {
        and_words(&mut self.words, &other.words);
    }

    /// Whether each bit that is set here is set in the other row.
    pub fn within(&self, other: &Bits) -> bool
        requires { length self.now ≡ length other.now }
        ensures { IsTrue result ↔ IsSubset self.now other.now }
    {
        words_within(&self.words, &other.words)
    }

    /// Whether the two rows have the same bits.
    pub fn equal(&self, other: &Bits) -> bool
        requires { length self.now ≡ length other.now }
        ensures { IsTrue result ↔ (self.now ≡ other.now) }
    {
        same_words(&self.words, &other.words)
    }

    /// The first place at which the two rows differ.
    pub fn first_difference(&self, other: &Bits) -> Option<u32>
        requires { length self.now ≡ length other.now }
        ensures some { IfSome result (DifferFirst self.now other.now) }
        ensures none { IfNone result (self.now ≡ other.now) }
    {
        for k in 0..self.count.div_ceil(64) {
            let here = self.words[k as usize];
            let there = other.words[k as usize];
            if here != there {
                return Some(k * 64 + first_other_bit(here, there));
            }
        }
        None
    }

    /// Makes this row the same as the other.
    pub fn copy_from(&mut self, other: &Bits)
        requires { length self.old ≡ length other.now }
        ensures { self.new ≡ other.now }
    {
        self.words.copy_from_slice(&other.words);
    }
}
