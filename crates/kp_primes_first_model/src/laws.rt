//! Laws of the first state, each proved as the contract of a function that does nothing.

ghost use Rattle.kp_primes_first_model.specs.Ordered.{IsFirstOnce, IsFirstByPassing};

/// Two states that are first are the same.
pub fn there_is_one_first()
    ensures { IsFirstOnce }
{}

/// Tests that the same states pass have the same first state.
pub fn first_goes_by_what_passes()
    ensures { IsFirstByPassing }
{}
