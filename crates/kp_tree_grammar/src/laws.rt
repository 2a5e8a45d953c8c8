//! Laws of the grammar, each proved as the contract of a function that does nothing.

ghost use Rattle.kp_tree_grammar.specs.Words.{DomainsAreNamed, ProblemsAreNamed};
ghost use Rattle.kp_tree_grammar.specs.Laws.{ReadsOnce, StopsOnce, NeverBoth, AlwaysOne, ReadsOnward, StopsOnward, WholeReadsOnce, WholeStopsOnce, WholeNeverBoth, WholeAlwaysOne, NamesAreNames, KeywordsAreKeywords, NoOtherKind};

/// A form reads given tokens as at most one tree, and leaves the same tokens behind it.
#[tactic(auto, using(crate::proofs::Exact::once_read))]
pub fn a_form_reads_once()
    ensures { ReadsOnce }
{}

/// A form that stops, stops at one token and for one reason.
#[tactic(auto, using(crate::proofs::Exact::once_stopped))]
pub fn a_form_stops_once()
    ensures { StopsOnce }
{}

/// A form doesn't both read and stop.
#[tactic(auto, using(crate::proofs::Exact::never_both))]
pub fn no_form_reads_and_stops()
    ensures { NeverBoth }
{}

/// A form reads or stops.
pub fn each_form_reads_or_stops()
    ensures { AlwaysOne }
{}

/// Where a form leaves a token that it read up to, or stops at a token, what stands behind that token doesn't matter.
pub fn what_is_left_does_not_matter()
    ensures reads { ReadsOnward }
    ensures stops { StopsOnward }
{}

/// Each Name is a name to the grammar and each Keyword a keyword, whatever its text; and no token is of another kind than its own.
pub fn word_classes_are_complete()
    ensures names { NamesAreNames }
    ensures keywords { KeywordsAreKeywords }
    ensures no_other { NoOtherKind }
{}

/// The words that the tree of a file keeps as names are Names in lower case, and predicates and the heads of atoms are no reserved ones.
pub fn names_in_trees_are_names()
    ensures domains { DomainsAreNamed }
    ensures problems { ProblemsAreNamed }
{}

/// A file is of a form as at most one tree, or it has one offending token; never both, and one of them always.
pub fn a_file_reads_or_stops()
    ensures one_tree { WholeReadsOnce }
    ensures one_offending_token { WholeStopsOnce }
    ensures never_both { WholeNeverBoth }
    ensures always_one { WholeAlwaysOne }
{}
