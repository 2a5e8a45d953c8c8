//! Laws of classical tasks, each proved as the contract of a function that does nothing.
ghost use Rattle.kp_run_classical.specs.Laws.{SuccessesArePlans, SuccessesHaveNames, PlansAreSuccesses};

/// The plans of two classical texts are the names of the lists of operators that succeed.
pub fn classical_plans_are_plans()
    ensures successes { SuccessesArePlans }
    ensures names { SuccessesHaveNames }
    ensures plans { PlansAreSuccesses }
{}
