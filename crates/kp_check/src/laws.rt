//! Laws of what is told, each proved as the contract of a function that does nothing.

ghost use Rattle.kp_check.specs.Failing.{IsFailing, IsFailingOnce};

/// Steps that fail somewhere don't succeed.
#[tactic(auto, using(crate::proofs::Once::failing))]
pub fn failing_steps_fail()
    ensures { IsFailing }
{}

/// From one state steps fail in one place, at one literal.
#[tactic(auto, using(crate::proofs::Once::failing_once))]
pub fn steps_fail_in_one_place()
    ensures { IsFailingOnce }
{}
