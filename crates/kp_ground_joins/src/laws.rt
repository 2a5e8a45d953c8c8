//! Laws of partial bindings, each proved as the contract of a function that does nothing.

ghost use Rattle.kp_ground_joins.specs.Laws.{KeptBindingsAreJoined, PartialBindingsGoOn};

/// The partial bindings of one parameter more are those of the parameters before, extended by its objects, of which
/// those stay that aren't refuted.
pub fn partial_bindings_go_on()
    ensures { PartialBindingsGoOn }
{}

/// The kept bindings are the partial bindings of all parameters whose precondition is settled.
pub fn kept_bindings_are_joined()
    ensures { KeptBindingsAreJoined }
{}
