//! Laws of the cutting, each proved as the contract of a function that does nothing.

ghost use Rattle.std.specs.Prelude.{◌≡◌, ◌≤◌, ℕ, List, length, slice_get, ◌⊎◌};
ghost use Rattle.kp_lex.specs.declared.token.Token.{Token};
ghost use Rattle.kp_lex.specs.Cutting.{Cut, BadAt};
ghost use Rattle.kp_lex.specs.Spans.{InOrder, IsTokenOf};

/// Each text is cut or has a bad byte, never both, and in one way alone.
pub fn one_outcome(bytes: &[u8])
    ensures some { ((ts : List Token) × Cut 0 bytes.now ts) ⊎ ((i : ℕ) × BadAt 0 bytes.now i) }
    ensures never_both { (ts : List Token) (i : ℕ) → Cut 0 bytes.now ts → BadAt 0 bytes.now i → ⊥ }
    ensures one_cutting { (ts us : List Token) → Cut 0 bytes.now ts → Cut 0 bytes.now us → ts ≡ us }
    ensures one_bad_byte { (i j : ℕ) → BadAt 0 bytes.now i → BadAt 0 bytes.now j → i ≡ j }
{}

/// The tokens of a text lie in it one behind the other, and each is a token of its kind.
pub fn token_spans(bytes: &[u8])
    ensures in_order { (ts : List Token) → Cut 0 bytes.now ts → InOrder 0 ts (length bytes.now) }
    ensures at_most { (ts : List Token) → Cut 0 bytes.now ts → length ts ≤ length bytes.now }
    ensures each { (ts : List Token) (i : ℕ) (t : Token) → Cut 0 bytes.now ts → slice_get ts i ≡ Some t → IsTokenOf bytes.now t }
{}
