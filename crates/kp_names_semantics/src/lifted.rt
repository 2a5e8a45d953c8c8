//! What stands in place of names: objects, predicates, schemas and variables by number.

use kp_base::{Row, Text};

/// A term by number.
#[derive(Debug, PartialEq, Eq, Drop)]
pub enum Term {
    /// A variable: how many stand outside it.
    Param(u32),
    /// An object.
    Object(u32),
}

/// The objects that a variable may stand for, ascending.
#[derive(Debug, PartialEq, Eq, Drop)]
pub struct Range {
    /// The objects.
    pub objects: Row<u32>,
}

/// A predicate.
#[derive(Debug, PartialEq, Eq, Drop)]
pub struct Pred {
    /// Its name.
    pub name: Text,
    /// How many terms its atoms have.
    pub arity: u32,
}

/// An atom by number, or its negation.
#[derive(Debug, PartialEq, Eq, Drop)]
pub struct GroundLit {
    /// Whether it is the atom itself.
    pub positive: bool,
    /// The predicate.
    pub pred: u32,
    /// The objects, in order.
    pub objects: Row<u32>,
}

/// What `:init` states.
#[derive(Debug, PartialEq, Eq, Drop)]
pub enum Item {
    /// The literal holds.
    One(GroundLit),
    /// Exactly one of the literals holds.
    OneOf(Row<GroundLit>),
    /// Some literal holds.
    AnyOf(Row<GroundLit>),
    /// The atom may hold or not.
    Unknown(GroundLit),
}
