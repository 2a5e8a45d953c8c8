ghost use Rattle.std.specs.Prelude.{◌≡◌, map, IfOk};
ghost use Rattle.kp_ground_flatten.specs.Literals.{lit_view};
ghost use Rattle.kp_ground_flatten.specs.Shapes.{key_view, IsSetOf, IsShapeOf};

use crate::literal::BoundLit;
use kp_base::Memory;
use std::alloc::Global;

/// A literal of a shape, with objects of its own.
#[derive(PartialEq, Eq, Hash, Drop)]
pub struct KeyLit {
    /// Whether it is the atom itself.
    pub positive: bool,
    /// The predicate.
    pub pred: u32,
    /// The objects, in order.
    pub objects: Vec<u32>,
}

/// What two effects have in common that are one: the result, and the set of the conditions, ascending.
#[derive(PartialEq, Eq, Hash, Drop)]
pub struct Shape {
    /// The result.
    pub result: KeyLit,
    /// The conditions, ascending and each once.
    pub conds: Vec<KeyLit>,
}

fn key_of(alloc: Global, literal: &BoundLit) -> Result<KeyLit, Memory>
    ensures { IfOk result (λ key. key_view key ≡ lit_view literal.now) }
{
    Ok(KeyLit {
        positive: literal.positive,
        pred: literal.pred,
        objects: Vec::from_slice(alloc, literal.objects)?,
    })
}

fn keys_of(alloc: Global, literals: &[BoundLit]) -> Result<Vec<KeyLit>, Memory>
    ensures { IfOk result (λ keys. map key_view keys.items ≡ map lit_view literals.now) }
{
    let mut keys = Vec::with_capacity(alloc, literals.len())?;
    'literals: for literal in literals {
        keys.push(key_of(alloc, literal)?)?;
    }
    Ok(keys)
}

// The literals in ascending order, each once.
fn set_of<'a>(alloc: Global, literals: &[BoundLit<'a>]) -> Result<Vec<BoundLit<'a>>, Memory>
    ensures { IfOk result (λ set. IsSetOf (map lit_view set.items) (map lit_view literals.now)) }
{
    let mut set = Vec::from_slice(alloc, literals)?;
    set.sort_unstable();
    set.dedup();
    Ok(set)
}

// The set of the literals, with objects of their own.
fn key_set(alloc: Global, literals: &[BoundLit]) -> Result<Vec<KeyLit>, Memory>
    ensures { IfOk result (λ keys. IsSetOf (map key_view keys.items) (map lit_view literals.now)) }
{
    let set = set_of(alloc, literals)?;
    let keys = keys_of(alloc, set.as_slice())?;
    Ok(keys)
}

/// The shape of the effect with this result under these conditions.
pub fn shape_of(alloc: Global, conds: &[BoundLit], made: &BoundLit) -> Result<Shape, Memory>
    ensures { IfOk result (λ shape. IsShapeOf shape (record { cond = map lit_view conds.now; result = lit_view made.now })) }
{
    let conds = key_set(alloc, conds)?;
    Ok(Shape {
        result: key_of(alloc, made)?,
        conds,
    })
}
