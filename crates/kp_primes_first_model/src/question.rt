ghost use Rattle.std.specs.Prelude.{◌≡◌, ◌<◌, ℕ, Bool, List, length, IfOk, IfSome};
ghost use Rattle.std.specs.List.{list_all};
ghost use Rattle.kp_base.specs.Steps.{State, holds};
ghost use Rattle.kp_primes_first_model.specs.Asked.{Judges, AskTheSame, test_at};

use crate::Truth;
use kp_base::{LitSet, Memory};
use std::alloc::Global;

/// What is seen of some states by a test.
#[derive(Drop)]
pub struct Seen<T> {
    /// Whether they pass it.
    pub truth: Truth,
    /// The same question of them, if less of it is left to ask. It is kept as long as these states are split further.
    pub less: Option<T>,
}

/// Which models are looked for: those that pass one of some tests. Each test may be decided where only some literals
/// are known.
pub trait Question {
    /// The number of atoms.
    ghost atoms: { Self → ℕ };

    /// The tests.
    ghost tests: { Self → List (State → Bool) };

    /// What the question asks of its parts.
    ghost ready: { Self → Type 0 };

    /// How many tests there are.
    fn count(&self) -> usize
        ensures { result ≡ length (tests self.now) };

    /// Judges by the test with this number the states in which these literals are true.
    fn judge(&self, alloc: Global, number: usize, known: &LitSet) -> Result<Seen<Self>, Memory>
        requires ready { ready self.now }
        requires in_range { number < length (tests self.now) }
        ensures truth { IfOk result (λ seen. Judges (atoms self.now) (test_at (tests self.now) number) known.now seen.truth) }
        ensures same_atoms { IfOk result (λ seen. IfSome seen.less (λ less. atoms less ≡ atoms self.now)) }
        ensures still_ready { IfOk result (λ seen. IfSome seen.less (λ less. ready less)) }
        ensures same { IfOk result (λ seen. IfSome seen.less (λ less. AskTheSame (λ s. list_all (holds s) known.now) (tests self.now) (tests less))) };
}
