ghost use Rattle.std.specs.Prelude.{◌≡◌};
ghost use Rattle.kp_primes_first_model.specs.Truths.{opposite, both, either, truth_in};

use kp_base::{AtomId, Lit, LitSet};

/// Whether something is so in the states in which some literals are true.
#[derive(Clone, Copy, Debug, PartialEq, Eq)]
pub enum Truth {
    /// It is so in each.
    Yes,
    /// It is so in none.
    No,
    /// It isn't clear as long as this atom isn't decided.
    Open(AtomId),
}

impl Truth {
    /// Whether it isn't so.
    pub fn negated(self) -> Truth
        ensures { result ≡ opposite self }
    {
        match self {
            Truth::Yes => Truth::No,
            Truth::No => Truth::Yes,
            Truth::Open(atom) => Truth::Open(atom),
        }
    }

    /// Whether both are so.
    pub fn and(self, other: Truth) -> Truth
        ensures { result ≡ both self other }
    {
        match (self, other) {
            (Truth::Yes, other) => other,
            (Truth::No, _) => Truth::No,
            (Truth::Open(_), Truth::No) => Truth::No,
            (Truth::Open(atom), _) => Truth::Open(atom),
        }
    }

    /// Whether one of the two is so.
    pub fn or(self, other: Truth) -> Truth
        ensures { result ≡ either self other }
    {
        self.negated().and(other.negated()).negated()
    }
}

/// Whether a literal is true where these are known.
pub fn truth_in(known: &LitSet, lit: Lit) -> Truth
    ensures { result ≡ truth_in known.now lit }
{
    if known.has(lit) {
        Truth::Yes
    } else if known.has(lit.negated()) {
        Truth::No
    } else {
        Truth::Open(lit.atom)
    }
}
