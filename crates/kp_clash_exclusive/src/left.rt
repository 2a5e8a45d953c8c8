//! The atoms of a row of pairs that an effect may break.
ghost use Rattle.std.specs.Prelude.{◌≡◌, ◌<◌, ◌/◌, ◌%◌, ℕ, false};
ghost use Rattle.std.specs.Int.{bit_at};
ghost use Rattle.kp_base.specs.Clashes.{are_exclusive};
ghost use Rattle.kp_base.specs.Lit.{positive};
ghost use Rattle.kp_clash_exclusive.specs.Paired.{is_pair};
ghost use Rattle.kp_clash_exclusive.specs.Left.{AreDeleted, HasBreaking, KeepsFree};

use crate::Pairs;
use crate::pairs::words_of;
use crate::words::WORDS;
use kp_base::{Action, Effect, Lit};
use kp_bits::only_here;

// Clears bits of the word at place k whose atoms the literal excludes.
fn leave_one(pairs: &Pairs, lit: Lit, k: u32, word: u64) -> u64
    ensures { (q : ℕ) → q / 64 ≡ k → are_exclusive (is_pair pairs.now) lit (positive q) ≡ false → bit_at word (q % 64) ≡ 1 → bit_at result (q % 64) ≡ 1 }
{
    if lit.positive {
        only_here(word, pairs.row_word(lit.atom, k))
    } else {
        word
    }
}

/// Clears bits of the word at place k whose atoms some literal excludes.
pub(crate) fn leave(pairs: &Pairs, lits: &[Lit], k: u32, word: u64) -> u64
    ensures { KeepsFree (is_pair pairs.now) lits.now k word result }
{
    let mut left = word;
    for lit in lits {
        left = leave_one(pairs, *lit, k, left);
    }
    left
}

// Those of the 64 atoms from 64 k on that are pairs with the effect's atom and aren't surely deleted.
fn unsure(pairs: &Pairs, sure: &[u64; WORDS], action: &Action, effect: &Effect, k: u32) -> u64
    requires sure { AreDeleted sure.now action.now }
    requires few { k < 1024 }
    ensures { HasBreaking (is_pair pairs.now) action.now effect.now k result }
{
    only_here(pairs.row_word(effect.result.atom, k), sure[k as usize])
}

/// Those of the 64 atoms from 64 k on with which the effect may break a pair alone.
pub fn candidates(
    pairs: &Pairs,
    action: &Action,
    sure: &[u64; WORDS],
    effect: &Effect,
    k: u32,
) -> u64
    requires sure { AreDeleted sure.now action.now }
    requires few { k < 1024 }
    ensures { HasBreaking (is_pair pairs.now) action.now effect.now k result }
{
    let word = unsure(pairs, sure, action, effect, k);
    if word == 0 {
        return 0;
    }
    let left = leave(pairs, action.pre.slice(), k, word);
    leave(pairs, effect.cond.slice(), k, left)
}

/// The atoms that these literals don't exclude, if they are more than eight.
pub(crate) fn left_by_long(pairs: &Pairs, lits: &[Lit]) -> [u64; WORDS] {
    let mut words = [0u64; WORDS];
    if lits.len() > 8 {
        for k in 0..words_of(pairs.atoms()) {
            words[k as usize] = leave(pairs, lits, k, u64::MAX);
        }
    }
    words
}

/// The same as `candidates`, where it is noted which atoms a long precondition left before; those that it leaves since are
/// missing.
pub fn likely(
    pairs: &Pairs,
    action: &Action,
    sure: &[u64; WORDS],
    left: &[u64; WORDS],
    effect: &Effect,
    k: u32,
) -> u64
    requires { k < 1024 }
{
    let word = only_here(pairs.row_word(effect.result.atom, k), sure[k as usize]);
    if word == 0 {
        return 0;
    }
    let pre = action.pre.slice();
    let free = if pre.len() > 8 {
        word & left[k as usize]
    } else {
        leave(pairs, pre, k, word)
    };
    leave(pairs, effect.cond.slice(), k, free)
}
