ghost use Rattle.std.specs.Prelude.{◌≡◌, ◌≤◌, ◌<◌, ℕ, Some, length, slice_get, IfOk};
ghost use Rattle.kp_bits.specs.Ranks.{trues_before, AreCounts};

use crate::Bits;
use crate::words::ones_below;
use kp_base::Memory;
use std::alloc::Global;
use std::marker::Model;

/// A row of bits that is read alone, with the count of the bits that are set before each 64th one. Contracts see the
/// list of its truth values.
#[derive(Drop)]
pub struct Ranked {
    bits: Bits,
    before: Vec<u32>,
}

impl Model for Ranked {
    ghost use Rattle.std.specs.Prelude.{List, Bool};
    ghost use Rattle.kp_bits.specs.Ranks.{AreCounts};

    ghost Value = { List Bool };

    ghost view = { λ r. r.bits };

    ghost invariant = { λ r. AreCounts r.bits r.before.items };
}

// How many bits are set before each 64th one.
fn counts(alloc: Global, bits: &Bits) -> Result<Vec<u32>, Memory>
    ensures { IfOk result (λ before. AreCounts bits.now before.items) }
{
    let words = bits.len() / 64 + 1;
    let mut before = Vec::new(alloc);
    let mut count = 0;
    for k in 0..words {
        before.push(count)?;
        count += bits.word(k).count_ones();
    }
    Ok(before)
}

impl Ranked {
    /// The row of these bits.
    pub fn of(alloc: Global, bits: Bits) -> Result<Ranked, Memory>
        ensures { IfOk result (λ row. row ≡ bits) }
    {
        let before = counts(alloc, &bits)?;
        Ok(Ranked { bits, before })
    }

    /// The row without its counts.
    pub fn bits(&self) -> &Bits
        ensures { result.now ≡ self.now }
    {
        &self.bits
    }

    /// How many bits the row has.
    pub fn len(&self) -> u32
        ensures { result ≡ length self.now }
    {
        self.bits.len()
    }

    /// Whether a bit is set.
    pub fn get(&self, i: u32) -> bool
        requires { i < length self.now }
        ensures { slice_get self.now i ≡ Some result }
    {
        self.bits.get(i)
    }

    /// How many bits are set before a place.
    pub fn rank(&self, i: u32) -> u32
        requires { i ≤ length self.now }
        ensures { result ≡ trues_before self.now i }
    {
        let k = i / 64;
        self.before[k as usize] + ones_below(self.bits.word(k), i % 64)
    }

    /// How many bits are set.
    pub fn total(&self) -> u32
        ensures { result ≡ trues_before self.now (length self.now) }
    {
        self.rank(self.len())
    }
}
