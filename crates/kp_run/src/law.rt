ghost use Rattle.kp_run.specs.Laws.{OutcomesAreAnswers};

/// An outcome that is due is an answer, and no fault.
pub fn outcomes_are_answers()
    ensures { OutcomesAreAnswers }
{}
