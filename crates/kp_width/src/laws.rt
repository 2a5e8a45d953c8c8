//! Laws of widths, each proved as the contract of a function that does nothing.

ghost use Rattle.kp_width.specs.Laws.{CoversOverAreMoreThanBound, EveryTargetHasAWidth, KnownProblemsAreAnswered, ProblemsHaveOneWidth, ReportsHaveTheWidth, RowsHaveTheWidth, TargetsOverAreWider};

/// The clauses of a row are as many as the width of its target.
pub fn rows_have_the_width()
    ensures { RowsHaveTheWidth }
{}

/// Where each target has its row, the greatest number of clauses of a row is the width of the problem.
pub fn reports_have_the_width()
    ensures { ReportsHaveTheWidth }
{}

/// Of a target that no set within the bound covers, each set that covers is greater than the bound.
pub fn covers_over_are_more_than_bound()
    ensures { CoversOverAreMoreThanBound }
{}

/// Where the parts of the question are known, each target has a width, of at most as many clauses as are relevant to it.
pub fn every_target_has_a_width()
    ensures { EveryTargetHasAWidth }
{}

/// The width of a target that no set within the bound covers is above the bound.
pub fn targets_over_are_wider()
    ensures { TargetsOverAreWider }
{}

/// Where targets, relevant clauses and tags are known, and whether tags meet clauses, there is an answer on the width.
pub fn known_problems_are_answered()
    ensures { KnownProblemsAreAnswered }
{}

/// There is one answer on the width of a ground problem, whichever formula with these models says what is so at the
/// start.
pub fn problems_have_one_width()
    ensures { ProblemsHaveOneWidth }
{}
