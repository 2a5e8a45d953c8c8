//! Laws of what is written for two trees, each proved as the contract of a function that does nothing.

ghost use Rattle.kp_law_translation.specs.Tables.{EmptyTagIsTable, EmptyTagsAreLight, TablesCanBeWritten};
ghost use Rattle.kp_law_translation.specs.Given.{ClosuresAreStarts, DifferentStatesAreDifferentModels, FormulasSpeakOfGroundAtoms, GroundProblemsAreOfTheirAtoms, GroundProblemsAreWritable, InitialStatesAreModels, NamesTellGroundAtoms, StartsAreOfAtoms};

/// Where no name is at fault, some state is initial exactly where the initial formula has a model.
#[tactic(auto, using(crate::proofs::Starts::states_are_models))]
pub fn initial_states_are_models()
    ensures { InitialStatesAreModels }
{}

/// Where no name is at fault, two initial states that say the same of each ground atom are the same state.
pub fn different_states_are_different_models()
    ensures { DifferentStatesAreDifferentModels }
{}

/// The initial formula speaks of ground atoms alone.
#[tactic(auto, using(crate::proofs::Starts::formulas_over_atoms))]
pub fn formulas_speak_of_ground_atoms()
    ensures { FormulasSpeakOfGroundAtoms }
{}

/// Where no name is at fault, the names of the ground atoms tell them apart.
pub fn names_tell_ground_atoms()
    ensures { NamesTellGroundAtoms }
{}

/// An ascending closure of the empty tag is what is known at the start.
#[tactic(auto, using(crate::proofs::Starts::closures_are_starts))]
pub fn closures_are_starts()
    ensures { ClosuresAreStarts }
{}

/// The literals that are known at the start are of ground atoms.
#[tactic(auto, using(crate::proofs::Written::starts_of_atoms))]
pub fn starts_speak_of_ground_atoms()
    ensures { StartsAreOfAtoms }
{}

/// The ground problem of two texts can be written.
pub fn ground_problems_can_be_written()
    ensures { GroundProblemsAreWritable }
{}

/// So it can with each table that is right, whose merges are valid and of ground atoms, and with that of the empty tag alone.
pub fn tables_can_be_written()
    ensures tables { TablesCanBeWritten }
    ensures empty_tag { EmptyTagIsTable }
{}

/// With the empty tag alone a task weighs at most twice what the instances do.
#[tactic(auto, using(crate::proofs::Sizes::empty_tags_light))]
pub fn empty_tags_are_light()
    ensures { EmptyTagsAreLight }
{}

/// The ground problem of two trees speaks of its own atoms alone.
#[tactic(auto, using(crate::proofs::OfAtoms::of_their_atoms))]
pub fn ground_problems_are_of_their_atoms()
    ensures { GroundProblemsAreOfTheirAtoms }
{}
