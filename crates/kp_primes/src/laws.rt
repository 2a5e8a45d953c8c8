//! The law of the limit, proved as the contract of a function that does nothing.

ghost use Rattle.kp_base.specs.Implicates.{IsLimitExact};

/// No formula has both more prime implicates than a limit and at most as many.
pub fn limits_are_exact()
    ensures { IsLimitExact }
{}
