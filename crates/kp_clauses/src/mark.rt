//! Marks of clauses: words of 64 bits, with a bit for the remainder of each literal's code.

ghost use Rattle.std.specs.Prelude.{◌≡◌, ◌≢◌, ◌%◌, ℕ, nat_eq};
ghost use Rattle.std.specs.Int.{bit_at};
ghost use Rattle.std.specs.Int.RustNames.{bit_or};
ghost use Rattle.kp_base.specs.Lit.{code_of};
ghost use Rattle.kp_clauses.specs.Sieved.{IsMark};

use kp_base::{Lit, LitSet};

// Sets the bit of a literal.
fn marked(word: u64, lit: Lit) -> u64
    ensures set { bit_at result (code_of lit % 64) ≡ 1 }
    ensures others { (i : ℕ) → i ≢ code_of lit % 64 → bit_at result i ≡ bit_at word i }
{
    let k = (lit.code() % 64) as u32;
    word | (1 << k)
}

/// The mark of a clause.
pub(crate) fn mark(c: &LitSet) -> u64
    ensures { IsMark c.now result }
{
    let lits = c.slice();
    let mut word = 0;
    for l in lits {
        word = marked(word, *l);
    }
    word
}

/// The mark of a clause without a literal.
pub(crate) fn mark_but(c: &LitSet, lit: Lit) -> u64 {
    let mut word = 0;
    for l in c.slice() {
        if *l != lit {
            word = marked(word, *l);
        }
    }
    word
}

/// Whether a clause with the first mark may be within one with the second.
pub(crate) fn marks_within(word: u64, other: u64) -> bool
    ensures { result ≡ nat_eq (bit_or word other) other }
{
    word | other == other
}
