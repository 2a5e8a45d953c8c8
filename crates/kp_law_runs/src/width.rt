//! What runs of `width` end with, each law the contract of a function that does nothing.

ghost use Rattle.kp_law_runs.specs.Width.{WidthsAreAnswered, WidthsAreTrue};

/// A call for the width ends with what is told of the report on its files.
pub fn widths_are_answered()
    ensures { WidthsAreAnswered }
{}

/// With Done it told the width of the problem, and clauses and tags that cover each target, as many as its width; with
/// Negative the first target whose width is above the bound.
pub fn widths_are_true()
    ensures { WidthsAreTrue }
{}
