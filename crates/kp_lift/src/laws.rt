//! Laws of operators by name, each proved as the contract of a function that does nothing.

ghost use Rattle.kp_lift.specs.Lifting.{LiftedOperatorsAreSteps, OperatorsAreSteps};

/// The operator of a step of the machine has its step by name.
#[tactic(auto, using(crate::proofs::Named::operators_steps))]
pub fn operators_are_steps()
    ensures { OperatorsAreSteps }
{}

/// So have the operators of a lifted list.
#[tactic(auto, using(crate::proofs::Named::lifted_operators_steps))]
pub fn lifted_operators_are_steps()
    ensures { LiftedOperatorsAreSteps }
{}
