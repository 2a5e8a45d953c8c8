//! Laws of the definitions, each proved as the contract of a function that does nothing.

ghost use Rattle.std.specs.Prelude.{◌≡◌, List, [], Some, None};
ghost use Rattle.kp_names_semantics.specs.Faults.{Fault, IsFirst};
ghost use Rattle.kp_names.specs.Resolved.{first_fault};

/// The first fault of a list is the one whose token stands first in the text, and only a list without faults has none.
#[tactic(auto, using(crate::proofs::FirstFault::none_there))]
pub fn the_first_fault_is_first()
    ensures some { (fs : List Fault) (f : Fault) → first_fault fs ≡ Some f → IsFirst fs f }
    ensures none { (fs : List Fault) → first_fault fs ≡ None → fs ≡ [] }
{}
