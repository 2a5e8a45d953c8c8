//! Which atoms an action adds.
ghost use Rattle.std.specs.Prelude.{◌≡◌, ◌<◌, ℕ, true, false};
ghost use Rattle.std.specs.List.{list_any};
ghost use Rattle.kp_bits.specs.Packed.{bit_in};
ghost use Rattle.kp_clash_exclusive.specs.Paired.{is_pair};
ghost use Rattle.kp_clash_exclusive.specs.Removed.{adds_pair};
ghost use Rattle.kp_clash_exclusive.specs.Left.{KeepsBits, is_added, all_added};

use crate::Pairs;
use crate::pairs::words_of;
use crate::words::{WORDS, set_bit};
use kp_base::{Action, AtomId, Effect};
use kp_bits::are_apart;

fn note(words: &mut [u64; WORDS], effect: &Effect)
    ensures noted { is_added words.new effect.now ≡ true }
    ensures keeps { KeepsBits words.old words.new }
{
    if effect.result.positive {
        set_bit(words, effect.result.atom);
    }
}

/// The atoms that the effects add, and that pairs may have.
pub(crate) fn atoms_added(effects: &[Effect]) -> [u64; WORDS]
    ensures { all_added result effects.now ≡ true }
{
    let mut words = [0u64; WORDS];
    for effect in effects {
        note(&mut words, effect);
    }
    words
}

/// Whether the atom is a pair with one of these.
pub(crate) fn meets(pairs: &Pairs, atom: AtomId, added: &[u64; WORDS]) -> bool
    ensures { result ≡ false → (q : ℕ) → is_pair pairs.now atom.0 q ≡ true → (q < 65536) × (bit_in added.now q ≡ 0) }
{
    for k in 0..words_of(pairs.atoms()) {
        if !are_apart(pairs.row_word(atom, k), added[k as usize]) {
            return true;
        }
    }
    false
}

/// Whether the effect adds an atom that is a pair with one of those that the action adds.
pub fn may_add_pair(pairs: &Pairs, action: &Action, effect: &Effect, added: &[u64; WORDS]) -> bool
    requires { all_added added.now action.now.effects ≡ true }
    ensures { result ≡ false → list_any (adds_pair (is_pair pairs.now) action.now effect.now) action.now.effects ≡ false }
{
    effect.result.positive && meets(pairs, effect.result.atom, added)
}
