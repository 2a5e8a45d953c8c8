use kp_base::{Place, Row, Text};
use kp_names_semantics::{GroundLit, Item, Pred, Range, Term};

/// A condition by number.
#[derive(Drop)]
pub enum Cond {
    /// The conjunction of the parts; it always holds where there is none.
    All(Row<Cond>),
    /// An atom, or its negation.
    Atom {
        /// False for the negation.
        positive: bool,
        /// The predicate.
        pred: u32,
        /// The terms, in order.
        terms: Row<Term>,
    },
    /// An equality, or its negation.
    Same {
        /// False for the negation.
        positive: bool,
        /// One side.
        left: Term,
        /// The other side.
        right: Term,
    },
}

/// An effect by number.
#[derive(Drop)]
pub enum Eff {
    /// All the parts; it does nothing where there is none.
    All(Row<Eff>),
    /// An effect under a condition.
    When(Cond, Box<Eff>),
    /// An effect for all objects of these ranges; the variables are numbered on from those round it.
    Each(Row<Range>, Box<Eff>),
    /// An atom that is added, or deleted.
    Atom {
        /// False where it is deleted.
        positive: bool,
        /// The predicate.
        pred: u32,
        /// The terms, in order.
        terms: Row<Term>,
    },
}

/// An action schema by number. Its parameters are the variables from 0 on.
#[derive(Drop)]
pub struct Schema {
    /// Its name.
    pub name: Text,
    /// The objects for each parameter.
    pub params: Row<Range>,
    /// The precondition.
    pub pre: Cond,
    /// The effect.
    pub effect: Eff,
}

/// A problem by number: the number of an object, predicate or schema is its position here.
#[derive(Drop)]
pub struct Lifted {
    /// The objects' names: the domain's constants, and then what the problem adds.
    pub objects: Row<Text>,
    /// The predicates, in order of declaration.
    pub predicates: Row<Pred>,
    /// The action schemas, in order of declaration.
    pub schemas: Row<Schema>,
    /// What `:init` states, with the parts of an `and` joined.
    pub init: Row<Item>,
    /// The literals of the goal, with the parts of an `and` joined.
    pub goal: Row<GroundLit>,
    /// The first `oneof`, `or` or `unknown` of `:init`, which leaves the initial state open.
    pub unsure: Option<Place>,
}
