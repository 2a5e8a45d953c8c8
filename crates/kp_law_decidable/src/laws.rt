//! Laws of questions that have an answer, each proved as the contract of a function that does nothing.

ghost use Rattle.kp_law_decidable.specs.Laws.{ClashesAreDecided, ClausesAreDecided, CoveragesAreDecided, CoversAreDecided, FormulasAreAscending, ImplicatesAreCounted, MadeTablesAreDecided, ModelsAreDecided, ModesAreDecided, NamesAreDecided, RelevanceIsDecided, SizesAreDecided, StepsAreDecided, TablesAreDecided, TablesWithNoneAreComplete, TagsAreDecided, TargetsAreDecided, TargetsHaveWidths, VerdictsAreDecided, WidthsAreDecided};

/// No name of two trees is at fault, or the trees are refused for one.
pub fn names_are_decided()
    ensures { NamesAreDecided }
{}

/// A problem by number is refused for its size, or it has a ground problem.
pub fn sizes_are_decided()
    ensures { SizesAreDecided }
{}

/// Each clause of an initial formula is in ascending order.
pub fn formulas_are_ascending()
    ensures { FormulasAreAscending }
{}

/// Some least number of first clauses has more prime implicates than a limit, or no number of them has.
pub fn implicates_are_counted()
    ensures { ImplicatesAreCounted }
{}

/// A formula over finitely many atoms has a model, or none.
pub fn models_are_decided()
    ensures { ModelsAreDecided }
{}

/// Some clash is the first, or no action clashes.
pub fn clashes_are_decided()
    ensures { ClashesAreDecided }
{}

/// Merges have a table, or are refused.
pub fn tables_are_decided()
    ensures { TablesAreDecided }
{}

/// Steps are a plan, or fail first from some model, and somewhere.
pub fn verdicts_are_decided()
    ensures { VerdictsAreDecided }
{}

/// Each step names an action, or some step is the first that names none.
pub fn steps_are_decided()
    ensures { StepsAreDecided }
{}

/// Some pairs of literals are those of a ground problem.
pub fn relevance_is_decided()
    ensures { RelevanceIsDecided }
{}

/// Some clauses are those that are relevant to a literal.
pub fn clauses_are_decided()
    ensures { ClausesAreDecided }
{}

/// Some literals are the targets.
pub fn targets_are_decided()
    ensures { TargetsAreDecided }
{}

/// Tags are consistent or not, clauses have tags, and tags meet clauses or don't.
pub fn tags_are_decided()
    ensures { TagsAreDecided }
{}

/// Tags cover a literal, or don't.
pub fn covers_are_decided()
    ensures { CoversAreDecided }
{}

/// Some literals are the targets that a table leaves uncovered.
pub fn coverages_are_decided()
    ensures { CoveragesAreDecided }
{}

/// Some merges are those of a mode, or the mode is refused.
pub fn modes_are_decided()
    ensures { ModesAreDecided }
{}

/// A table that leaves no target uncovered is complete.
pub fn tables_with_none_are_complete()
    ensures { TablesWithNoneAreComplete }
{}

/// A mode has a table, or a refusal.
pub fn made_tables_are_decided()
    ensures { MadeTablesAreDecided }
{}

/// A problem has a width within a bound, a target over it, or a refusal.
pub fn widths_are_decided()
    ensures { WidthsAreDecided }
{}

/// Each target has a width, of at most as many clauses as are relevant to it.
pub fn targets_have_widths()
    ensures { TargetsHaveWidths }
{}
