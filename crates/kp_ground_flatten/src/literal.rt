ghost use Rattle.std.specs.Prelude.{◌≡◌, map, IfOk};
ghost use Rattle.kp_ground_flatten.specs.Literals.{lit_view};

use kp_base::{Memory, Row};
use kp_names_semantics::GroundLit;
use std::alloc::Global;

/// An atom or its negation, whose objects lie in a tree.
#[derive(Clone, Copy, Default, PartialEq, Eq, PartialOrd, Ord, Hash)]
pub struct BoundLit<'a> {
    /// Whether it is the atom itself.
    pub positive: bool,
    /// The predicate.
    pub pred: u32,
    /// The objects, in order.
    pub objects: &'a [u32],
}

/// The literal with objects of its own.
pub fn owned(alloc: Global, literal: &BoundLit) -> Result<GroundLit, Memory>
    ensures { IfOk result (λ m. m ≡ lit_view literal.now) }
{
    Ok(GroundLit {
        positive: literal.positive,
        pred: literal.pred,
        objects: Row::from_slice(alloc, literal.objects)?,
    })
}

/// The literals with objects of their own.
pub fn all_owned(alloc: Global, literals: &[BoundLit]) -> Result<Row<GroundLit>, Memory>
    ensures { IfOk result (λ row. row ≡ map lit_view literals.now) }
{
    let mut row = Vec::with_capacity(alloc, literals.len())?;
    'literals: for literal in literals {
        row.push(owned(alloc, literal)?)?;
    }
    Ok(Row::from_vec(row))
}
