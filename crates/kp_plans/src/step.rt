use kp_base::{GroundName, Place};

/// A step of a plan file.
#[derive(Debug, PartialEq, Eq, Drop)]
pub struct PlanStep {
    /// The name of an action, or of an operator of the written files.
    pub name: GroundName,
    /// The place of its head in the plan file.
    pub place: Place,
}
