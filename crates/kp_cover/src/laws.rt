//! Laws of covers and coverage, each proved as the contract of a function that does nothing.

ghost use Rattle.kp_cover.specs.Laws.{CoversAreTold, TagsOfCandidatesAreGood, IsCovOnce, RelevantClausesAreOfAtoms, AreUncoveredOnce, NoneAreUncoveredIfComplete, IsCoverageOnce};

/// `is_cover` tells which clauses have tags that cover.
pub fn covers_are_told()
    ensures { CoversAreTold }
{}

/// The tags that `cov` answers for candidate clauses are valid, and each is consistent.
pub fn tags_of_candidates_are_good()
    ensures { TagsOfCandidatesAreGood }
{}

/// Clauses have one list of tags, whatever formula says which states are models.
pub fn clauses_have_one_cov()
    ensures { IsCovOnce }
{}

/// The clauses that are relevant to a literal are of the atoms, as `is_cover` asks.
pub fn relevant_clauses_are_of_atoms()
    ensures { RelevantClausesAreOfAtoms }
{}

/// A table has one list of uncovered targets.
pub fn there_is_one_list_of_uncovered()
    ensures { AreUncoveredOnce }
{}

/// A complete table has no uncovered targets.
pub fn none_are_uncovered_if_complete()
    ensures { NoneAreUncoveredIfComplete }
{}

/// A table has one answer on its coverage.
pub fn there_is_one_coverage()
    ensures { IsCoverageOnce }
{}
