//! Laws of what searches come to, each proved as the contract of a function that does nothing.

ghost use Rattle.kp_run_solve.specs.Laws.{ClassicalSolvingsHaveOneOutcome, EndsAreTrue, NamedPlansAreAccepted, NoPlanIsAccepted, OperatorsHaveNames, SolvingsHaveOneOutcome};

/// What the end of the search of a task that fits says of it is true.
#[tactic(auto, using(crate::proofs::Searches::ends_true))]
pub fn ends_are_true()
    ensures { EndsAreTrue }
{}

/// A ground problem with a table comes to one outcome.
pub fn solvings_have_one_outcome()
    ensures { SolvingsHaveOneOutcome }
{}

/// A classical task comes to one outcome.
pub fn classical_solvings_have_one_outcome()
    ensures { ClassicalSolvingsHaveOneOutcome }
{}

/// Operators that succeed are steps that the machine accepts.
pub fn named_plans_are_accepted()
    ensures { NamedPlansAreAccepted }
{}

/// Where no operators succeed, the machine accepts nothing.
#[tactic(auto, using(crate::proofs::Plans::none_accepted))]
pub fn no_plan_is_accepted()
    ensures { NoPlanIsAccepted }
{}

/// Operators that are there have names.
pub fn operators_have_names()
    ensures { OperatorsHaveNames }
{}
