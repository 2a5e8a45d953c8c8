ghost use Rattle.std.specs.Prelude.{◌≡◌, ◌≢◌, ◌<◌, ◌^◌, ◌↔◌, ℕ, Some, decimal, option_map, IsTrue, MatchOption};
ghost use Rattle.kp_words.specs.Options.{IsOfRange, SaysNumber, SaysLimit, SaysBudget, SaysBound, SaysSize, AreApart, AreNotBoth};

use itoa::Buffer;

/// How many prime implicates a prefix may have where no option says it.
pub const USUAL_LIMIT: u32 = 20_000;

// Whether a word differs from another, if there is one.
fn is_other(word: &str, other: Option<&str>) -> bool
    ensures { IsTrue result ↔ AreApart (Some word.now) (option_map (λ w. w.now) other.entry) }
{
    match other {
        Some(other) => word != other,
        None => true,
    }
}

/// Whether two words, where there are both, differ.
pub(crate) fn are_apart(left: Option<&str>, right: Option<&str>) -> bool
    ensures { IsTrue result ↔ AreApart (option_map (λ w. w.now) left.entry) (option_map (λ w. w.now) right.entry) }
{
    match left {
        Some(left) => is_other(left, right),
        None => true,
    }
}

/// Whether two words aren't both there.
pub(crate) fn are_not_both(left: Option<&str>, right: Option<&str>) -> bool
    ensures { IsTrue result ↔ AreNotBoth (option_map (λ w. w.now) left.entry) (option_map (λ w. w.now) right.entry) }
{
    match left {
        Some(_) => right.is_none(),
        None => true,
    }
}

/// The bytes of a word, if there is one.
pub(crate) fn bytes_of(word: Option<&str>) -> Option<&[u8]>
    ensures { option_map (λ w. w.now) result ≡ option_map (λ w. w.now) word.entry }
{
    match word {
        Some(word) => Some(word.as_bytes()),
        None => None,
    }
}

// Whether a word is a number in decimal.
fn is_decimal(word: &str, number: u32) -> bool
    ensures { IsTrue result ↔ (word.now ≡ decimal number) }
{
    let mut buffer = Buffer::new();
    buffer.format(number) == word
}

// The number that a word says in decimal.
#[tactic(auto, using(crate::proofs::Numbers::decimal_parses))]
fn number_of(word: &str) -> Option<u32>
    ensures { MatchOption result ((n : ℕ) → n < 2 ^ 32 → word.now ≢ decimal n) (λ n. word.now ≡ decimal n) }
{
    let Ok(number) = word.parse::<u32>() else {
        return None;
    };
    if !is_decimal(word, number) {
        return None;
    }
    Some(number)
}

// Whether a number is of this range.
fn is_within(least: u32, most: u32, number: u32) -> bool
    ensures { IsTrue result ↔ IsOfRange least most number }
{
    least <= number && number <= most
}

// The number of this range that a word says.
fn number_within(word: &str, least: u32, most: u32) -> Option<u32>
    ensures { MatchOption result ((n : ℕ) → IsOfRange least most n → word.now ≢ decimal n) (λ n. IsOfRange least most n × (word.now ≡ decimal n)) }
{
    let number = number_of(word)?;
    if !is_within(least, most, number) {
        return None;
    }
    Some(number)
}

// The number of this range that the value of an option says, or the usual one.
fn said_number(value: Option<&str>, least: u32, most: u32, usual: u32) -> Option<u32>
    ensures { MatchOption result ((n : ℕ) → SaysNumber least most usual (option_map (λ s. s.now) value.entry) n → ⊥) (λ n. SaysNumber least most usual (option_map (λ s. s.now) value.entry) n) }
{
    match value {
        Some(word) => number_within(word, least, most),
        None => Some(usual),
    }
}

/// The limit of prime implicates that the value of an option says.
pub(crate) fn said_limit(value: Option<&str>) -> Option<u32>
    ensures { MatchOption result ((n : ℕ) → SaysLimit (option_map (λ s. s.now) value.entry) n → ⊥) (λ n. SaysLimit (option_map (λ s. s.now) value.entry) n) }
{
    said_number(value, 1, 100_000, USUAL_LIMIT)
}

/// The budget of a search that the value of an option says.
pub(crate) fn said_budget(value: Option<&str>) -> Option<u32>
    ensures { MatchOption result ((n : ℕ) → SaysBudget (option_map (λ s. s.now) value.entry) n → ⊥) (λ n. SaysBudget (option_map (λ s. s.now) value.entry) n) }
{
    said_number(value, 1, 1_000_000, 10_000)
}

/// The greatest size of a set of clauses that the value of an option says.
pub(crate) fn said_bound(value: Option<&str>) -> Option<u32>
    ensures { MatchOption result ((n : ℕ) → SaysBound (option_map (λ s. s.now) value.entry) n → ⊥) (λ n. SaysBound (option_map (λ s. s.now) value.entry) n) }
{
    said_number(value, 0, 8, 3)
}

/// The size of a generated problem that a word says.
pub(crate) fn said_size(word: Option<&str>) -> Option<u32>
    ensures { MatchOption result ((n : ℕ) → SaysSize (option_map (λ s. s.now) word.entry) n → ⊥) (λ n. SaysSize (option_map (λ s. s.now) word.entry) n) }
{
    said_number(word, 2, 100, 0)
}
