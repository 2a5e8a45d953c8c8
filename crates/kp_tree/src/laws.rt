//! Laws of whole files, each proved as the contract of a function that does nothing.

ghost use Rattle.kp_tree.specs.Files.{FilesReadOnce, FilesRefuseOnce, FilesNeverBoth, FilesAlwaysOne};

/// A file has one tree at most, or one refusal; never both, and one of them always.
pub fn a_file_has_one_answer()
    ensures one_tree { FilesReadOnce }
    ensures one_refusal { FilesRefuseOnce }
    ensures never_both { FilesNeverBoth }
    ensures always_one { FilesAlwaysOne }
{}
