//! Which atoms no pair has.
ghost use Rattle.std.specs.Prelude.{◌≡◌, ℕ, true, false};
ghost use Rattle.kp_bits.specs.Packed.{bit_in};
ghost use Rattle.kp_clash_exclusive.specs.Paired.{is_pair};
ghost use Rattle.kp_clash_exclusive.specs.Left.{AreLone};

use crate::Pairs;
use crate::pairs::words_of;
use crate::words::{WORDS, set_bit};
use kp_base::AtomId;
use kp_bits::has_bit;

// Whether no pair has the atom.
fn has_none(pairs: &Pairs, atom: AtomId) -> bool
    ensures { result ≡ true → (q : ℕ) → is_pair pairs.now atom.0 q ≡ false }
{
    for k in 0..words_of(pairs.atoms()) {
        if pairs.row_word(atom, k) != 0 {
            return false;
        }
    }
    true
}

// Sets the bit of the atom, if no pair has it.
fn note(pairs: &Pairs, words: &mut [u64; WORDS], atom: AtomId)
    requires { AreLone (is_pair pairs.now) words.old }
    ensures { AreLone (is_pair pairs.now) words.new }
{
    if has_none(pairs, atom) {
        set_bit(words, atom);
    }
}

/// The atoms that no pair has, of those that pairs may have.
pub fn atoms_alone(pairs: &Pairs) -> [u64; WORDS]
    ensures { AreLone (is_pair pairs.now) result }
{
    let mut words = [0u64; WORDS];
    for p in 0..pairs.atoms() {
        note(pairs, &mut words, AtomId(p));
    }
    words
}

/// Whether the atom is noted as one that no pair has.
pub fn is_alone(words: &[u64; WORDS], atom: AtomId) -> bool
    ensures { result ≡ true → bit_in words.now atom.0 ≡ 1 }
{
    atom.0 < 65536 && has_bit(words[(atom.0 / 64) as usize], atom.0 % 64)
}
