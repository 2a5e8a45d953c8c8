//! Rows in which no other number is marked.
ghost use Rattle.std.specs.Prelude.{◌≡◌, ◌<◌, ◌+◌, ◌*◌, ℕ, true, false, get_or, length};
ghost use Rattle.std.specs.Int.{bit_at};
ghost use Rattle.kp_relevance.specs.Tabled.{IsSquare, AreLone};

use kp_bits::{Bits, with_bit};

// Whether the word of the numbers from 64 w on has another than k.
fn has_other(word: u64, w: u32, k: u32) -> bool
    ensures { result ≡ false → (j : ℕ) → j < 64 → bit_at word j ≡ 1 → k ≡ w * 64 + j }
{
    word != 0 && (w != k / 64 || word != with_bit(0, k % 64))
}

/// Whether no other number than k is marked in a row of n.
pub(crate) fn is_lone(row: &Bits, n: u32, k: u32) -> bool
    requires { length row.now ≡ n }
    ensures { result ≡ true → (i : ℕ) → get_or row.now i false ≡ true → k ≡ i }
{
    for w in 0..n.div_ceil(64) {
        if has_other(row.word(w), w, k) {
            return false;
        }
    }
    true
}

// Notes number k, if no other is marked in its row.
fn note_lone(rows: &[Bits], n: u32, k: u32, lone: &mut Bits)
    requires square { IsSquare n rows.now }
    requires below { k < n }
    requires wide { length lone.old ≡ n }
    requires before { AreLone n rows.now lone.old }
    ensures wide { length lone.new ≡ n }
    ensures lone { AreLone n rows.now lone.new }
{
    if is_lone(&rows[k as usize], n, k) {
        lone.set(k);
    }
}

/// Notes each number in whose row no other is marked.
pub(crate) fn note_lone_rows(rows: &[Bits], n: u32, lone: &mut Bits)
    requires square { IsSquare n rows.now }
    requires wide { length lone.old ≡ n }
    requires before { AreLone n rows.now lone.old }
    ensures wide { length lone.new ≡ n }
    ensures lone { AreLone n rows.now lone.new }
{
    for k in 0..n {
        note_lone(rows, n, k, lone);
    }
}
