//! Laws of the written texts, each proved as the contract of a function that does nothing.

ghost use Rattle.kp_write.specs.Grounds.{FactsTellApart};
ghost use Rattle.kp_write.specs.Problems.{WrittenTextsHaveProblem};
ghost use Rattle.kp_write.specs.Runs.{PlansAreRuns};
ghost use Rattle.kp_write.specs.Tasks.{TaskPlansAreRuns, TasksRead};
ghost use Rattle.kp_write.specs.Texts.{DomainReadsAsMeant, ProblemReadsAsMeant};

/// The written domain of facts and operators whose names can be written is cut and reads as their domain.
pub fn written_domains_read()
    ensures { DomainReadsAsMeant }
{}

/// The written problem of facts whose names can be written is cut and reads as their problem.
pub fn written_problems_read()
    ensures { ProblemReadsAsMeant }
{}

/// The two texts of a task have a problem, and without its places it is the task's.
pub fn written_texts_have_a_problem()
    ensures { WrittenTextsHaveProblem }
{}

/// The plans of the two texts of a task are the lists of its operators that run from its start and meet its goal.
pub fn plans_are_runs()
    ensures { PlansAreRuns }
{}

/// A fact's name tells its tag, its sign and its atom.
pub fn facts_tell_apart()
    ensures { FactsTellApart }
{}

/// The two texts of a task by number that can be written have its problem.
#[tactic(auto, using(crate::proofs::Numbered::tasks_read))]
pub fn tasks_read()
    ensures { TasksRead }
{}

/// The plans of the two texts are the lists of its operators that run from its start and meet its goal.
pub fn task_plans_are_runs()
    ensures { TaskPlansAreRuns }
{}
