//! What a run of each command ends with, each law the contract of a function that does nothing.

ghost use Rattle.kp_run.specs.Ends.{Ends};
ghost use Rattle.kp_run.specs.Completeness.{StaysSolvable};
ghost use Rattle.kp_law_runs.specs.Commands.{TranslationsAreAnswered, CompleteIsTrue, SomeModesTellComplete, MergesAreListed, ChecksAreAnswered, ChecksAreTrue, ClashesAreAnswered, StripsAreAnswered, LiftsAreAnswered, LiftsAreTrue, LiftedLinesStrip};

/// A run on files that nothing refuses, and a source that has a table, ends with their translation.
pub fn translations_are_answered()
    ensures { TranslationsAreAnswered }
{}

/// The last line that such a run told is `complete` exactly where the table is complete.
pub fn complete_is_true()
    ensures { CompleteIsTrue }
{}

/// Under `--mode models` and `--mode auto` a translation that ends with Done told `complete`.
pub fn some_modes_tell_complete()
    ensures { SomeModesTellComplete }
{}

/// Where a translation told `complete`, each plan of the two files that it read, of any length, is the strip of a plan of
/// the two that it put. So a solvable problem stays solvable.
pub fn solvable_stays_solvable()
    ensures { StaysSolvable Ends }
{}

/// A call for merges on such files ends with the merges of the mode.
pub fn merges_are_listed()
    ensures { MergesAreListed }
{}

/// A run on such files and a plan ends with the verdict.
pub fn checks_are_answered()
    ensures { ChecksAreAnswered }
{}

/// Where two files aren't refused and steps name kept actions, a check that ends with an answer ends with Done exactly where
/// the steps are a plan of the files.
pub fn checks_are_true()
    ensures { ChecksAreTrue }
{}

/// A run on files of which an action clashes ends with the lines of the first clash.
pub fn clashes_are_answered()
    ensures { ClashesAreAnswered }
{}

/// A run on a plan file that strips ends with what its steps come to.
pub fn strips_are_answered()
    ensures { StripsAreAnswered }
{}

/// A lift of a plan of such files ends with the lifted plan, or with where it fails.
pub fn lifts_are_answered()
    ensures { LiftsAreAnswered }
{}

/// Such a lift is Done exactly where some accepted list of steps strips to the plan's actions.
pub fn lifts_are_true()
    ensures { LiftsAreTrue }
{}

/// The lines that such a lift told, where it ended with Done, read as a plan of the translation that strips to the given
/// steps.
pub fn lifted_lines_strip()
    ensures { LiftedLinesStrip }
{}
