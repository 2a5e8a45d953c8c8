//! Laws of relevance, each proved as the contract of a function that does nothing.

ghost use Rattle.kp_relevance.specs.Laws.{RelevanceGoesByChains, RelevanceIsLeast, AreClausesForOnce};

/// A literal is relevant to another just where a chain of literals leads there, each joined to the next by an effect.
pub fn relevance_goes_by_chains()
    ensures { RelevanceGoesByChains }
{}

/// Relevance is within each relation that keeps its four rules.
pub fn relevance_is_least()
    ensures { RelevanceIsLeast }
{}

/// A literal has one list of clauses that are relevant to it.
pub fn there_is_one_list_of_clauses()
    ensures { AreClausesForOnce }
{}
