//! Laws of the merges of modes, each proved as the contract of a function that does nothing.

ghost use Rattle.kp_tags_modes.specs.Laws.{MergesOfModesAreGood, ModesHaveOneAnswer, SomeModesAreNeverRefused, SomeModesCoverEach};

/// Each merge of a mode has a target, consistent tags of the ground problem's atoms, and is valid.
pub fn merges_of_modes_are_good()
    ensures { MergesOfModesAreGood }
{}

/// The merges of `Models`, and those of `Auto`, cover each target that the empty tag doesn't.
pub fn some_modes_cover_each()
    ensures { SomeModesCoverEach }
{}

/// A mode has one answer on a ground problem, whichever formula with these models says what is so at the start.
pub fn modes_have_one_answer()
    ensures { ModesHaveOneAnswer }
{}

/// `Models` and `Auto` are never refused.
pub fn some_modes_are_never_refused()
    ensures { SomeModesAreNeverRefused }
{}
