use kp_base::Row;
use kp_names_semantics::GroundLit;

/// An effect of an instance: where the conditions hold before a step, the result holds after it.
#[derive(Debug, PartialEq, Eq, Drop)]
pub struct FlatEffect {
    /// The literals that must hold before the step.
    pub cond: Row<GroundLit>,
    /// The atom that is added, or, for a negative literal, deleted.
    pub result: GroundLit,
}

/// An instance without nesting, static literals and equalities.
#[derive(Debug, PartialEq, Eq, Drop)]
pub struct Flat {
    /// The literals of the precondition, in the order of the text.
    pub pre: Row<GroundLit>,
    /// The effects, in the order of the text.
    pub effects: Row<FlatEffect>,
}
