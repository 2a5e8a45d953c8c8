//! Laws of the ground problem, each proved as the contract of a function that does nothing.

ghost use Rattle.kp_ground_semantics.specs.Laws.{IsSplit, IsFlatExact, IsOnceExact, IsStaticAtFirst, IsStaticKept, AtomsAreNumbered, IsStepExact, IsKeptExact, IsPlanExact, AreNamedBySteps, AreNamedOnce};

/// A condition holds where its static literals and equalities are true and what remains of it holds.
#[tactic(auto, using(crate::proofs::Flattening::split))]
pub fn conditions_split()
    ensures { IsSplit }
{}

/// The flat effects fire just what the effect fires.
#[tactic(auto, using(crate::proofs::Flattening::flat_exact))]
pub fn flat_effects_are_exact()
    ensures { IsFlatExact }
{}

/// Where effects are repeated, leaving the repeats out changes nothing.
#[tactic(auto, using(crate::proofs::Step::once_exact))]
pub fn repeats_fire_nothing_more()
    ensures { IsOnceExact }
{}

/// In an initial state the atoms of static predicates are as `:init` says.
pub fn static_truth_at_first()
    ensures { IsStaticAtFirst }
{}

/// A step keeps the atoms of static predicates as they are.
#[tactic(auto, using(crate::proofs::Static::static_kept))]
pub fn static_truth_is_kept()
    ensures { IsStaticKept }
{}

/// The ground atoms are those that occur, each once and in order.
pub fn atoms_are_numbered()
    ensures { AtomsAreNumbered }
{}

/// On the ground atoms, the action of a kept instance does what the instance does.
pub fn ground_steps_are_exact()
    ensures { IsStepExact }
{}

/// An instance that may be taken in a state with the static truth is kept.
pub fn only_kept_instances_apply()
    ensures { IsKeptExact }
{}

/// Where there is an initial state, the plans are the lists of kept instances whose actions succeed from each one.
pub fn ground_plans_are_plans()
    ensures { IsPlanExact }
{}

/// The action of a kept instance has the name of its step, and there are no other actions.
pub fn actions_are_named_by_steps()
    ensures { AreNamedBySteps }
{}

/// No two actions have one name.
pub fn actions_are_named_once()
    ensures { AreNamedOnce }
{}
