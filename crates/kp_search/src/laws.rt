//! Laws of searches, each proved as the contract of a function that does nothing.

ghost use Rattle.kp_search.specs.Laws.{HasOneEnd, HasOneEndByAdded, HasSomeEnd, HasSomeEndByAdded};

/// A search by an estimate has at most one end.
#[tactic(auto, using(crate::proofs::OneEnd::has_one_end))]
pub fn has_one_end()
    ensures { HasOneEnd }
{}

/// A search by an estimate has an end, whatever the budget.
#[tactic(auto, using(crate::proofs::SomeEnd::has_some_end))]
pub fn has_some_end()
    ensures { HasSomeEnd }
{}

/// A search by the estimate `added` has at most one end.
#[tactic(auto, using(crate::proofs::ByAdded::one_end_by_added))]
pub fn has_one_end_by_added()
    ensures { HasOneEndByAdded }
{}

/// A search by the estimate `added` has an end, whatever the budget.
#[tactic(auto, using(crate::proofs::ByAdded::some_end_by_added))]
pub fn has_some_end_by_added()
    ensures { HasSomeEndByAdded }
{}
