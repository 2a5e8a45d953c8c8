//! Laws of sets of one size, each proved as the contract of a function that does nothing.

ghost use Rattle.kp_cover_subsets.specs.Laws.{NoSmallerSetPasses, SetsAreInOrder, SubsetsAreSublists};

/// The sets of one size are the sublists of this length, and there are as many as the binomial number says.
pub fn subsets_are_sublists()
    ensures { SubsetsAreSublists }
{}

/// Sets of one size stand in order: at the first place in which two differ, the lesser comes first.
pub fn sets_are_in_order()
    ensures { SetsAreInOrder }
{}

/// Where a least set is found and no size is skipped, no smaller set passes.
pub fn no_smaller_set_passes()
    ensures { NoSmallerSetPasses }
{}
