ghost use Rattle.kp_law_runs.specs.Laws.{CommandsHaveAnOutcome, HasOneOutcome, HasSomeOutcome, UnknownStepsAreNoPlan, YesIsAPlan};

/// A command comes to an outcome on any contents of its input files.
pub fn commands_have_an_outcome()
    ensures { CommandsHaveAnOutcome }
{}

/// Words have an outcome on what is held, if, where they are a command, its input files are held.
pub fn words_have_some_outcome()
    ensures { HasSomeOutcome }
{}

/// Words have at most one outcome on what is held.
pub fn words_have_one_outcome()
    ensures { HasOneOutcome }
{}

/// The verdict on steps is yes exactly where they are a plan of the two texts.
pub fn yes_is_a_plan()
    ensures { YesIsAPlan }
{}

/// Steps of which one names no action aren't a plan of the two texts.
pub fn unknown_steps_are_no_plan()
    ensures { UnknownStepsAreNoPlan }
{}
