//! Laws of lifted lists and of complete tables, each proved as the contract of a function that does nothing.

ghost use Rattle.kp_law_tagged_machine.specs.Completeness.{FailingListsDontLift, LiftedListsAreBest, LiftedListsStrip, ListsFailOnce, ListsLiftOrFail, NoPlanIsLost};

/// Without its merges, a lifted list is what was lifted.
#[tactic(auto, using(crate::proofs::Lifted::lists_strip))]
pub fn lifted_lists_strip()
    ensures { LiftedListsStrip }
{}

/// A lifted list is accepted where any list of steps is that strips to the same.
#[tactic(auto, using(crate::proofs::Lifted::lists_best))]
pub fn lifted_lists_are_best()
    ensures { LiftedListsAreBest }
{}

/// Actions that are there lift, or fail somewhere.
#[tactic(auto, using(crate::proofs::Failing::lift_or_fail))]
pub fn lists_lift_or_fail()
    ensures { ListsLiftOrFail }
{}

/// Where they fail, no list of steps that strips to them is accepted.
#[tactic(auto, using(crate::proofs::Failing::dont_lift))]
pub fn failing_lists_dont_lift()
    ensures { FailingListsDontLift }
{}

/// They fail in one place, and one literal is told.
#[tactic(auto, using(crate::proofs::Failing::fail_once))]
pub fn lists_fail_once()
    ensures { ListsFailOnce }
{}

/// With a complete table each plan of a ground problem lifts.
pub fn no_plan_is_lost()
    ensures { NoPlanIsLost }
{}
