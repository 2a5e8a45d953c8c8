//! Laws of tasks, each proved as the contract of a function that does nothing.

ghost use Rattle.kp_classic.specs.Laws.{SuccessIsARun};

/// Operators succeed just where each is applicable in its turn and the goal is met at the end.
#[tactic(auto, using(crate::proofs::Stepping::success_is_a_run))]
pub fn success_is_a_run()
    ensures { SuccessIsARun }
{}
