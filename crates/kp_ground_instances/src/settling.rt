ghost use Rattle.std.specs.Prelude.{◌≡◌, map, IfOk, OnOk};
ghost use Rattle.kp_base.specs.Lists.{signed};
ghost use Rattle.kp_names_semantics.specs.Lifted.{object_of};
ghost use Rattle.kp_names_semantics.specs.Numbered as numbered;
ghost use Rattle.kp_names.specs.View.{cond_view, lifted_view};
ghost use Rattle.kp_ground_semantics.specs.Static.{settled};

use crate::statics::Statics;
use kp_base::Memory;
use kp_names::Cond;
use kp_names_semantics::Term;
use std::alloc::Allocator;

/// The object that a term stands for under a list of objects for the variables.
pub fn object_of(objects: &[u32], term: &Term) -> u32
    ensures { result ≡ object_of objects.now term.now }
{
    match term {
        Term::Param(number) => objects.get(*number as usize).copied().unwrap_or(0),
        Term::Object(object) => *object,
    }
}

/// Puts the objects of terms in place of what is there.
pub fn put_objects<A: Allocator>(
    room: &mut Vec<u32, A>,
    objects: &[u32],
    terms: &[Term],
) -> Result<(), Memory>
    ensures { OnOk result (room.new.items ≡ map (object_of objects.now) terms.now) }
{
    room.clear();
    for term in terms {
        room.push(object_of(objects, term))?;
    }
    Ok(())
}

/// A truth value, or its negation.
pub fn signed(positive: bool, value: bool) -> bool
    ensures { result ≡ signed positive value }
{
    if positive { value } else { !value }
}

// Whether an atom or its negation is true, where its predicate is static.
fn literal_settled(
    statics: &Statics,
    room: &mut Vec<u32>,
    positive: bool,
    pred: u32,
    terms: &[Term],
    objects: &[u32],
) -> Result<bool, Memory>
    ensures { IfOk result (λ b. b ≡ settled (lifted_view statics.now) objects.now (numbered.Cond.atom positive pred terms.now)) }
{
    if !statics.is_static(pred) {
        return Ok(true);
    }
    put_objects(room, objects, terms)?;
    Ok(signed(positive, statics.is_true_at_first(pred, room.as_slice())))
}

/// Whether all static literals and all equalities of a condition are true under a list of objects for the variables.
/// What stands in the room is lost.
pub fn settled_in(
    statics: &Statics,
    room: &mut Vec<u32>,
    cond: &Cond,
    objects: &[u32],
) -> Result<bool, Memory>
    ensures { IfOk result (λ b. b ≡ settled (lifted_view statics.now) objects.now (cond_view cond.now)) }
{
    match cond {
        Cond::All(parts) => {
            for part in parts.slice() {
                if !settled_in(statics, room, part, objects)? {
                    return Ok(false);
                }
            }
            Ok(true)
        }
        Cond::Atom {
            positive,
            pred,
            terms,
        } => Ok(literal_settled(statics, room, *positive, *pred, terms.slice(), objects)?),
        Cond::Same {
            positive,
            left,
            right,
        } => Ok(signed(
            *positive,
            object_of(objects, left) == object_of(objects, right),
        )),
    }
}
