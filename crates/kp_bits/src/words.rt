//! Words of 64 bits, bit by bit.
ghost use Rattle.std.specs.Prelude.{◌≡◌, ◌≢◌, ◌<◌, ◌≤◌, ◌%◌, ◌^◌, ◌↔◌, ℕ, IsTrue, length, slice_index_or};
ghost use Rattle.std.specs.Int.{bit_at};
ghost use Rattle.std.specs.Int.RustNames.{bit_and, bit_or, count_ones};

/// The word with this bit set.
pub fn with_bit(word: u64, k: u32) -> u64
    requires { k < 64 }
    ensures set { bit_at result k ≡ 1 }
    ensures others { (i : ℕ) → i ≢ k → bit_at result i ≡ bit_at word i }
{
    word | (1 << k)
}

pub(crate) fn without_bit(word: u64, k: u32) -> u64
    requires { k < 64 }
    ensures clear { bit_at result k ≡ 0 }
    ensures others { (i : ℕ) → i < 64 → i ≢ k → bit_at result i ≡ bit_at word i }
{
    word & !(1 << k)
}

/// Whether this bit of the word is set.
pub fn has_bit(word: u64, k: u32) -> bool
    requires { k < 64 }
    ensures { IsTrue result ↔ (bit_at word k ≡ 1) }
{
    word & (1 << k) != 0
}

/// How many of the word's first k bits are set.
pub(crate) fn ones_below(word: u64, k: u32) -> u32
    requires { k < 64 }
    ensures { result ≡ count_ones (word % 2 ^ k) }
{
    (word & ((1 << k) - 1)).count_ones()
}

/// The word at a place; past the end one with no bit set.
pub(crate) fn word_at(words: &[u64], k: usize) -> u64
    ensures { result ≡ slice_index_or words.now k 0 }
{
    if k < words.len() { words[k] } else { 0 }
}

/// The bits of the word that are not set in the other.
pub fn only_here(word: u64, other: u64) -> u64
    ensures { (j : ℕ) → j < 64 → (bit_at result j ≡ 1) ↔ ((bit_at word j ≡ 1) × (bit_at other j ≡ 0)) }
{
    word & !other
}

/// Whether no bit is set in both words.
pub fn are_apart(word: u64, other: u64) -> bool
    ensures { IsTrue result ↔ ((j : ℕ) → j < 64 → bit_at word j ≡ 1 → bit_at other j ≡ 0) }
{
    word & other == 0
}

/// Sets in each word the bits of the other word at its place.
pub(crate) fn or_words(words: &mut [u64], others: &[u64])
    requires { length words.old ≡ length others.now }
    ensures len { length words.new ≡ length words.old }
    ensures each { (k : ℕ) → k < length words.old → slice_index_or words.new k 0 ≡ bit_or (slice_index_or words.old k 0) (slice_index_or others.now k 0) }
{
    for k in 0..words.len() {
        words[k] |= others[k];
    }
}

/// Clears in each word the bits that aren't set in the other word at its place.
pub(crate) fn and_words(words: &mut [u64], others: &[u64])
    requires { length words.old ≡ length others.now }
    ensures len { length words.new ≡ length words.old }
    ensures each { (k : ℕ) → k < length words.old → slice_index_or words.new k 0 ≡ bit_and (slice_index_or words.old k 0) (slice_index_or others.now k 0) }
{
    for k in 0..words.len() {
        words[k] &= others[k];
    }
}

// Whether each bit that is set in the word is set in the other.
fn word_within(word: u64, other: u64) -> bool
    ensures { IsTrue result ↔ ((j : ℕ) → j < 64 → bit_at word j ≡ 1 → bit_at other j ≡ 1) }
{
    word | other == other
}

/// Whether each bit that is set in a word is set in the other word at its place.
pub(crate) fn words_within(words: &[u64], others: &[u64]) -> bool
    requires { length words.now ≡ length others.now }
    ensures { IsTrue result ↔ ((k j : ℕ) → k < length words.now → j < 64 → bit_at (slice_index_or words.now k 0) j ≡ 1 → bit_at (slice_index_or others.now k 0) j ≡ 1) }
{
    for k in 0..words.len() {
        if !word_within(words[k], others[k]) {
            return false;
        }
    }
    true
}

// Whether the two words have the same bits.
fn same_word(word: u64, other: u64) -> bool
    ensures { IsTrue result ↔ ((j : ℕ) → j < 64 → bit_at word j ≡ bit_at other j) }
{
    word == other
}

/// Whether the words have the same bits as the others at their places.
pub(crate) fn same_words(words: &[u64], others: &[u64]) -> bool
    requires { length words.now ≡ length others.now }
    ensures { IsTrue result ↔ ((k j : ℕ) → k < length words.now → j < 64 → bit_at (slice_index_or words.now k 0) j ≡ bit_at (slice_index_or others.now k 0) j) }
{
    for k in 0..words.len() {
        if !same_word(words[k], others[k]) {
            return false;
        }
    }
    true
}

/// The lowest bit in which the two words differ.
pub(crate) fn first_other_bit(word: u64, other: u64) -> u32
    requires { word ≢ other }
    ensures in_range { result < 64 }
    ensures differ { bit_at word result ≢ bit_at other result }
    ensures same_before { (j : ℕ) → j < result → bit_at word j ≡ bit_at other j }
{
    (word ^ other).trailing_zeros()
}
