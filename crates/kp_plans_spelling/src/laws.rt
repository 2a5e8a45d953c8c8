//! Laws of what is printed, each proved as the contract of a function that does nothing.

ghost use Rattle.kp_plans_spelling.specs.Spelling.{LiteralsAreBracketed};

/// Each literal is printed in brackets, also one whose atom isn't there.
#[tactic(auto, using(crate::proofs::Bracketed::literals_are_bracketed))]
pub fn literals_are_bracketed()
    ensures { LiteralsAreBracketed }
{}
