//! Laws of files of merges, each proved as the contract of a function that does nothing.

ghost use Rattle.kp_tags_files.specs.MergesFiles.{MergesReadOnce, MergesRefuseOnce, MergesNeverBoth, MergesAlwaysOne};

/// A file of merges has one list of merges at most, or one refusal; never both, and one of them always.
pub fn a_merges_file_has_one_answer()
    ensures one_list { MergesReadOnce }
    ensures one_refusal { MergesRefuseOnce }
    ensures never_both { MergesNeverBoth }
    ensures always_one { MergesAlwaysOne }
{}
