//! Laws of the plans of the written files, each proved as the contract of a function that does nothing.

ghost use Rattle.kp_law_translation.specs.Laws.{LiftsAreWritten, PlansLift, TranslationsAreSound, WrittenPlansStripToSolutions};

/// Each plan of what is written for two trees and a table strips to a list that solves their problem, where their ground problem can be written and nothing clashes.
#[tactic(auto, using(crate::proofs::Trees::plans_solve))]
pub fn written_plans_strip_to_solutions()
    ensures { WrittenPlansStripToSolutions }
{}

/// So each plan of what is written for two texts and a table strips to a plan of the texts, where nothing clashes.
#[tactic(auto, using(crate::proofs::Trees::translations_sound))]
pub fn translations_are_sound()
    ensures { TranslationsAreSound }
{}

/// Steps that lifted actions have by name, where the machine accepts them, are a plan of what is written, and strip to the names of the actions.
pub fn lifts_are_written()
    ensures { LiftsAreWritten }
{}

/// With a complete table each plan of two texts lifts, where some state is initial.
pub fn plans_lift()
    ensures { PlansLift }
{}
