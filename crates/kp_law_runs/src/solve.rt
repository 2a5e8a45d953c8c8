//! What runs of `solve` and `classical` end with, each proved as the contract of a function that does nothing.

ghost use Rattle.kp_law_runs.specs.Solve.{ClassicalIsAPlan, ClassicalPosedOnce, ClassicalSpentIsTrue, ClassicalsAreAnswered, NoClassicalPlanIsTrue, NoPlanInSomeModes, NoPlanIsTrue, PosedOnce, SolvedIsAPlan, SolvingsAreAnswered, SpentIsTrue};

/// A call to solve ends with what its search comes to.
pub fn solvings_are_answered()
    ensures { SolvingsAreAnswered }
{}

/// A call to solve is about one pair of trees and one table.
pub fn posed_once()
    ensures { PosedOnce }
{}

/// With Done it told a plan of the given files, and put a plan of the written ones if a name was given for it.
pub fn solved_is_a_plan()
    ensures { SolvedIsAPlan }
{}

/// With Negative the written files have no plan, and where `complete` was told the given files have none.
pub fn no_plan_is_true()
    ensures { NoPlanIsTrue }
{}

/// Under `--mode models` and `--mode auto` it told `complete` with Negative, so the given files have none.
pub fn no_plan_in_some_modes()
    ensures { NoPlanInSomeModes }
{}

/// With Spent more states than the budget says can be reached.
pub fn spent_is_true()
    ensures { SpentIsTrue }
{}

/// A call to solve classical files ends with what its search comes to.
pub fn classicals_are_answered()
    ensures { ClassicalsAreAnswered }
{}

/// It is about one pair of trees.
pub fn classical_posed_once()
    ensures { ClassicalPosedOnce }
{}

/// With Done it told a plan of them.
pub fn classical_is_a_plan()
    ensures { ClassicalIsAPlan }
{}

/// With Negative they have none.
pub fn no_classical_plan_is_true()
    ensures { NoClassicalPlanIsTrue }
{}

/// With Spent more states than the budget says can be reached.
pub fn classical_spent_is_true()
    ensures { ClassicalSpentIsTrue }
{}
