use kp_base::{Row, Text};

/// Conditions on facts, which go by number.
#[derive(Drop)]
pub struct Conds {
    /// The facts that must hold.
    pub yes: Row<u32>,
    /// The facts that must not hold.
    pub no: Row<u32>,
}

/// An effect: where its conditions are met before a step, its fact holds after it, or doesn't.
#[derive(Drop)]
pub struct OpEffect {
    /// What must be met before the step.
    pub cond: Conds,
    /// The fact that is added or deleted.
    pub fact: u32,
    /// Whether the fact is added; else it is deleted.
    pub adds: bool,
}

/// An operator.
#[derive(Drop)]
pub struct Op {
    /// Its name in the written domain; it may be empty.
    pub name: Text,
    /// What must be met where the operator is taken.
    pub pre: Conds,
    /// The effects, in order. Where one adds a fact and another deletes it, the fact holds after the step.
    pub effects: Row<OpEffect>,
}

/// A classical task. The number of a fact or an operator is its position.
#[derive(Drop)]
pub struct Task {
    /// The names of the facts; they may be empty.
    pub facts: Row<Text>,
    /// The facts that hold at the start.
    pub init: Row<u32>,
    /// What must be met at the end.
    pub goal: Conds,
    /// The operators.
    pub ops: Row<Op>,
}
