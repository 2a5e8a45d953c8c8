//! Laws of the task of a ground problem and a table, each proved as the contract of a function that does nothing.

ghost use Rattle.kp_law_ktask.specs.ByName.{TasksAreNamed};
ghost use Rattle.kp_law_ktask.specs.Laws.{FactsAreKnown, FactsAreNumbered, OperatorsDoSteps, RunsAreAccepted, StepsAreInjective, TaggedPlansAreAccepted, TaggedPlansAreSound, TaggedStepsStrip, TaggedTasksAreFit, TaggedTasksAreTasks, TaggedTasksCanBeWritten};
ghost use Rattle.kp_law_ktask.specs.Weight.{BothWeighAlike, FactsAreCounted, WeightIsCounted};

/// The task can be written: its names are Names and differ, and it has only numbers of its facts.
pub fn tagged_tasks_can_be_written()
    ensures { TaggedTasksCanBeWritten }
{}

/// Where a `u32` counts its facts and operators, it is fit to be run.
pub fn tagged_tasks_are_fit()
    ensures { TaggedTasksAreFit }
{}

/// Its facts and operators by name are those that `specs/ByName.antt` says.
pub fn tagged_tasks_are_named()
    ensures { TasksAreNamed }
{}

/// These are a task: their names can be written and differ, and only its facts are used.
pub fn tagged_tasks_are_tasks()
    ensures { TaggedTasksAreTasks }
{}

/// The runs of the operators, and the plans of the two texts, are the lists of steps that the tagged machine accepts.
pub fn tagged_plans_are_accepted()
    ensures runs { RunsAreAccepted }
    ensures plans { TaggedPlansAreAccepted }
{}

/// The operators by number succeed exactly where the machine accepts their steps.
pub fn operators_do_steps()
    ensures { OperatorsDoSteps }
{}

/// Steps of the machine with one step by name are one.
#[tactic(auto, using(crate::proofs::Injective::injective))]
pub fn steps_are_injective()
    ensures { StepsAreInjective }
{}

/// The steps by name strip to the names of their actions.
#[tactic(auto, using(crate::proofs::Strips::steps_strip))]
pub fn tagged_steps_strip()
    ensures { TaggedStepsStrip }
{}

/// Where the table is right, its merges are valid and nothing clashes, plans of the two texts strip to ground plans.
#[tactic(auto, using(crate::proofs::Plans::plans_sound))]
pub fn tagged_plans_are_sound()
    ensures { TaggedPlansAreSound }
{}

/// The facts that hold after operators are what the machine knows after their steps.
pub fn facts_are_known()
    ensures { FactsAreKnown }
{}

/// Each fact has its number.
pub fn facts_are_numbered()
    ensures { FactsAreNumbered }
{}

/// There are two facts for each tag and atom.
#[tactic(auto, using(crate::proofs::Numbers::facts_length))]
pub fn facts_are_counted()
    ensures { FactsAreCounted }
{}

/// The task's weight is that of the actions, for each tag, and of the merges.
pub fn weight_is_counted()
    ensures { WeightIsCounted }
{}

/// A cancellation has as many conditions as its support.
pub fn both_weigh_alike()
    ensures { BothWeighAlike }
{}
