//! Laws of the estimate `added`, each proved as the contract of a function that does nothing.

ghost use Rattle.kp_guide.specs.Laws.{AddedExists, AddedIsOne, AddedIsRight};

/// A state of a task has no two estimates.
#[tactic(auto, using(crate::proofs::Existing::added_one))]
pub fn added_is_one()
    ensures { AddedIsOne }
{}

/// Each state of a task that fits has an estimate.
#[tactic(auto, using(crate::proofs::Existing::added_exists))]
pub fn added_exists()
    ensures { AddedExists }
{}

/// Where it is `None`, no operators lead to the goal.
#[tactic(auto, using(crate::proofs::Relaxed::added_right))]
pub fn added_is_right()
    ensures { AddedIsRight }
{}
