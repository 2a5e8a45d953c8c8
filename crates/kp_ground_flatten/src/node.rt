//! The tree of an instance, as it lies in an arena.

/// An instance: a schema with objects in place of its variables.
#[derive(Clone, Copy)]
pub struct BoundNode<'a> {
    /// The precondition.
    pub pre: BoundCond<'a>,
    /// The effect.
    pub effect: BoundEff<'a>,
}

/// A condition of an instance.
#[derive(Clone, Copy)]
pub enum BoundCond<'a> {
    /// The conjunction of the parts; it always holds where there is none.
    All(&'a [BoundCond<'a>]),
    /// An atom, or its negation.
    Atom {
        /// False for the negation.
        positive: bool,
        /// The predicate.
        pred: u32,
        /// The objects, in order.
        terms: &'a [u32],
    },
    /// An equality, or its negation.
    Same {
        /// False for the negation.
        positive: bool,
        /// One object.
        left: u32,
        /// The other object.
        right: u32,
    },
}

/// An effect of an instance.
#[derive(Clone, Copy)]
pub enum BoundEff<'a> {
    /// All the parts; it does nothing where there is none.
    All(&'a [BoundEff<'a>]),
    /// An effect under a condition.
    When(BoundCond<'a>, &'a BoundEff<'a>),
    /// An atom that is added, or deleted.
    Atom {
        /// False where it is deleted.
        positive: bool,
        /// The predicate.
        pred: u32,
        /// The objects, in order.
        terms: &'a [u32],
    },
}
