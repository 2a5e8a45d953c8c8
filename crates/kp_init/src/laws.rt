//! Laws of the initial formula, each proved as the contract of a function that does nothing.

ghost use Rattle.kp_init.specs.Laws.{IsInitialExact, IsInitialOver, IsPlanByModels, IsPlanByName, IsPlanOfTexts};

/// The models are the initial states, one for one.
pub fn models_are_initial_states()
    ensures { IsInitialExact }
{}

/// The initial formula speaks of the ground atoms alone.
pub fn initial_formulas_speak_of_ground_atoms()
    ensures { IsInitialOver }
{}

/// Where there is a model, the plans are the lists of kept instances whose actions succeed from each model.
pub fn plans_are_runs_from_models()
    ensures { IsPlanByModels }
{}

/// Where there is a model, the plans of two trees are the names of the lists of actions that succeed from each model.
pub fn plans_by_name_are_runs_from_models()
    ensures { IsPlanByName }
{}

/// Where there is a model, the plans of two texts that have a problem are the names of the lists of actions that succeed from each model.
pub fn plans_of_texts_are_runs_from_models()
    ensures { IsPlanOfTexts }
{}
