//! Rows of bits, 64 to a word. `specs/Rows.antt` has the words of their contracts.
#![tactic(auto)]

mod bits;
mod ranked;
mod words;

pub use bits::Bits;
pub use ranked::Ranked;
pub use words::{are_apart, has_bit, only_here, with_bit};
