//! Which effects may be compatible with one.
ghost use Rattle.std.specs.Prelude.{◌≡◌, ◌/◌, ◌%◌, ℕ, true, false};
ghost use Rattle.std.specs.Int.{bit_at};
ghost use Rattle.std.specs.List.{list_any};
ghost use Rattle.kp_base.specs.Clashes.{are_exclusive};
ghost use Rattle.kp_base.specs.Lit.{positive};
ghost use Rattle.kp_clash_exclusive.specs.Paired.{is_pair};
ghost use Rattle.kp_clash_exclusive.specs.Left.{AreLeft, is_set, is_asked, all_asked};

use crate::Pairs;
use crate::left::leave;
use crate::pairs::words_of;
use crate::words::WORDS;
use kp_base::{Action, AtomId, Effect, Lit};
use kp_bits::has_bit;

// Those of the 64 atoms from 64 k on that the precondition doesn't exclude, or all if it has too many literals to look
// through.
fn left_by_pre(pairs: &Pairs, pre: &[Lit], k: u32) -> u64
    ensures { (q : ℕ) → q / 64 ≡ k → list_any (λ l. are_exclusive (is_pair pairs.now) l (positive q)) pre.now ≡ false → bit_at result (q % 64) ≡ 1 }
{
    if pre.len() > 8 {
        u64::MAX
    } else {
        leave(pairs, pre, k, u64::MAX)
    }
}

/// Those of the 64 atoms from 64 k on that the effect's conditions don't exclude.
pub fn left_by(pairs: &Pairs, action: &Action, effect: &Effect, k: u32) -> u64
    ensures { (q : ℕ) → q / 64 ≡ k → list_any (λ l. are_exclusive (is_pair pairs.now) l (positive q)) action.now.pre ≡ false → list_any (λ l. are_exclusive (is_pair pairs.now) l (positive q)) effect.now.cond ≡ false → bit_at result (q % 64) ≡ 1 }
{
    let left = left_by_pre(pairs, action.pre.slice(), k);
    leave(pairs, effect.cond.slice(), k, left)
}

/// All of them, and those that no pair has.
pub fn atoms_left(pairs: &Pairs, action: &Action, effect: &Effect) -> [u64; WORDS]
    ensures { AreLeft (is_pair pairs.now) action.now.pre effect.now.cond result }
{
    let mut words = [u64::MAX; WORDS];
    for k in 0..words_of(pairs.atoms()) {
        words[k as usize] = left_by(pairs, action, effect, k);
    }
    words
}

fn is_left(words: &[u64; WORDS], atom: AtomId) -> bool
    ensures { result ≡ is_set words.now atom.0 }
{
    if atom.0 < 65536 {
        has_bit(words[(atom.0 / 64) as usize], atom.0 % 64)
    } else {
        true
    }
}

fn joins(words: &[u64; WORDS], lit: Lit) -> bool
    ensures { result ≡ is_asked words.now lit }
{
    !lit.positive || is_left(words, lit.atom)
}

/// Whether the atoms of the positive literals are among those that are left.
pub fn all_join(words: &[u64; WORDS], lits: &[Lit]) -> bool
    ensures { result ≡ all_asked words.now lits.now }
{
    lits.iter().all(|l| joins(words, *l))
}
