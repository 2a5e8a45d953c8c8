//! Laws of the definitions, each proved as the contract of a function that does nothing.

ghost use Rattle.kp_names_semantics.specs.Encoding.{EncodedDecodes, DecodedIsEncoding};
ghost use Rattle.kp_names_semantics.specs.FaultLaws.{DomainTokensHaveOneFault, ProblemTokensHaveOneFault};
ghost use Rattle.kp_names_semantics.specs.NumberLaws.{GoalsArePlain, IsHoldsNumbered, IsFiresNumbered, IsStepNumbered, IsInitialNumbered, IsPlanNumbered, IsNamedOnce};
ghost use Rattle.kp_names_semantics.specs.Places.{PlacesMeanNothing};
ghost use Rattle.kp_names_semantics.specs.Plans.{HasOneProblem};
ghost use Rattle.kp_names_semantics.specs.Types.{IsTypeTestExact};

/// The test of types decides the relation, cycles included.
#[tactic(auto, using(crate::proofs::Types::type_test_exact))]
pub fn type_test_is_exact()
    ensures { IsTypeTestExact }
{}

/// A name that was encoded is decoded again.
#[tactic(auto, using(crate::proofs::Encoding::encoded_decodes))]
pub fn what_was_encoded_decodes()
    ensures { EncodedDecodes }
{}

/// A word that can be read back as a name is what encoding that name gives; so it stands for one name alone.
pub fn what_decodes_was_encoded()
    ensures { DecodedIsEncoding }
{}

/// Two texts have at most one problem.
pub fn texts_have_one_problem()
    ensures { HasOneProblem }
{}

/// Whether two trees have a fault, and what solves them, doesn't depend on where their words stand.
pub fn places_mean_nothing()
    ensures { PlacesMeanNothing }
{}

/// A condition holds by number where it holds by name.
#[tactic(auto, using(crate::proofs::Numbered::holds_numbered))]
pub fn conditions_mean_the_same_by_number()
    ensures { IsHoldsNumbered }
{}

/// An effect names the same literals by number as by name.
#[tactic(auto, using(crate::proofs::Numbered::fires_numbered))]
pub fn effects_mean_the_same_by_number()
    ensures { IsFiresNumbered }
{}

/// An instance by number does what the step of its name does.
pub fn steps_are_the_same_by_number()
    ensures { IsStepNumbered }
{}

/// The initial states by number are those by name.
#[tactic(auto, using(crate::proofs::NumberedPlans::initial_numbered))]
pub fn initial_states_are_the_same_by_number()
    ensures { IsInitialNumbered }
{}

/// The plans by name are the plans by number, with names put back.
pub fn plans_are_the_same_by_number()
    ensures { IsPlanNumbered }
{}

/// No two instances by number have one name.
#[tactic(auto, using(crate::proofs::NumberedPlans::named_once))]
pub fn instances_are_named_once()
    ensures { IsNamedOnce }
{}

/// By the grammar no equality stands in a goal.
pub fn goals_have_no_equality()
    ensures { GoalsArePlain }
{}

/// Two faults at one token of a file are the same. So no token has faults of two kinds, and at most one fault comes first.
pub fn no_token_has_two_faults()
    ensures domain { DomainTokensHaveOneFault }
    ensures problem { ProblemTokensHaveOneFault }
{}
