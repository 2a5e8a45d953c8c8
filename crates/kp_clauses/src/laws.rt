//! The law of saturated clauses, proved as the contract of a function that does nothing.

ghost use Rattle.kp_clauses.specs.Saturated.{IsSaturationExact};

/// A saturated list of clauses, none within another, is just the list of its prime implicates.
#[tactic(auto, using(crate::proofs::Saturated::saturation_exact))]
pub fn saturated_clauses_are_the_prime_implicates()
    ensures { IsSaturationExact }
{}
