//! A bit for each atom below 65,536; pairs have none from there on.
ghost use Rattle.std.specs.Prelude.{◌≡◌, true};
ghost use Rattle.kp_clash_exclusive.specs.Left.{KeepsBits, AddsBit, is_set};

use kp_base::AtomId;
use kp_bits::with_bit;

/// How many words hold these bits.
pub const WORDS: usize = 1024;

/// Sets the bit of the atom, if it is below 65,536.
pub(crate) fn set_bit(words: &mut [u64; WORDS], atom: AtomId)
    ensures set { is_set words.new atom.0 ≡ true }
    ensures keeps { KeepsBits words.old words.new }
    ensures no_other { AddsBit words.old words.new atom.0 }
{
    if atom.0 < 65536 {
        let k = (atom.0 / 64) as usize;
        words[k] = with_bit(words[k], atom.0 % 64);
    }
}

/// In which blocks a word has a bit: word k is of block k modulo 64, which has that bit.
pub(crate) fn blocks_of(words: &[u64; WORDS]) -> u64 {
    let mut blocks = 0u64;
    for k in 0..WORDS {
        if words[k] != 0 {
            blocks = with_bit(blocks, k as u32 % 64);
        }
    }
    blocks
}
