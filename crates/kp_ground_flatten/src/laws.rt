//! Binding changes no meaning. Each law is the contract of a function that does nothing.

ghost use Rattle.kp_ground_flatten.specs.Laws.{IsHoldsBound, IsFiresBound, IsSplitBound, IsFlatBound, IsFlatOfTree};

/// A bound condition holds where the condition holds under the binding.
#[tactic(auto, using(crate::proofs::Meaning::holds_bound))]
pub fn bound_conditions_hold_alike()
    ensures { IsHoldsBound }
{}

/// A bound effect fires what the effect fires under the binding.
#[tactic(auto, using(crate::proofs::Meaning::fires_bound))]
pub fn bound_effects_fire_alike()
    ensures { IsFiresBound }
{}

/// A bound condition has the same truth of static literals and equalities, and the same other literals.
#[tactic(auto, using(crate::proofs::Meaning::split_bound))]
pub fn bound_conditions_split_alike()
    ensures { IsSplitBound }
{}

/// A bound effect has the same flat effects.
#[tactic(auto, using(crate::proofs::Meaning::flat_bound))]
pub fn bound_effects_are_flat_alike()
    ensures { IsFlatBound }
{}

/// The flat form of an instance's tree is that of the instance.
#[tactic(auto, using(crate::proofs::Meaning::flat_of_tree))]
pub fn trees_are_flat_alike()
    ensures { IsFlatOfTree }
{}
