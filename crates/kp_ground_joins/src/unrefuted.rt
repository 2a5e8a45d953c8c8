ghost use Rattle.std.specs.Prelude.{◌≡◌, ◌==◌, ◌&&◌, ◌||◌, not, length, IfOk};
ghost use Rattle.std.specs.List.{list_all};
ghost use Rattle.kp_base.specs.Lists.{signed};
ghost use Rattle.kp_names_semantics.specs.Lifted.{object_of};
ghost use Rattle.kp_names_semantics.specs.Numbered as numbered;
ghost use Rattle.kp_names.specs.View.{cond_view, lifted_view};
ghost use Rattle.kp_ground_semantics.specs.Partial.{is_bound, unrefuted};

use kp_base::Memory;
use kp_ground_instances::{Statics, object_of, put_objects, signed};
use kp_names::Cond;
use kp_names_semantics::Term;

/// Whether a term is an object, or one of the first variables.
pub fn is_bound(count: usize, term: &Term) -> bool
    ensures { result ≡ is_bound count term.now }
{
    match term {
        Term::Param(number) => (*number as usize) < count,
        Term::Object(_) => true,
    }
}

fn are_bound(count: usize, terms: &[Term]) -> bool
    ensures { result ≡ list_all (is_bound count) terms.now }
{
    terms.iter().all(|term| is_bound(count, term))
}

// Whether an atom or its negation isn't false, where its predicate is static and its variables have objects.
fn literal_unrefuted(
    statics: &Statics,
    room: &mut Vec<u32>,
    positive: bool,
    pred: u32,
    terms: &[Term],
    objects: &[u32],
) -> Result<bool, Memory>
    ensures { IfOk result (λ b. b ≡ unrefuted (lifted_view statics.now) objects.now (numbered.Cond.atom positive pred terms.now)) }
{
    if !statics.is_static(pred) {
        return Ok(true);
    }
    if !are_bound(objects.len(), terms) {
        return Ok(true);
    }
    put_objects(room, objects, terms)?;
    Ok(signed(positive, statics.is_true_at_first(pred, room.as_slice())))
}

// The same of an equality or its negation.
fn equality_unrefuted(positive: bool, left: &Term, right: &Term, objects: &[u32]) -> bool
    ensures { result ≡ (not (is_bound (length objects.now) left.now && is_bound (length objects.now) right.now) || signed positive (object_of objects.now left.now == object_of objects.now right.now)) }
{
    if !is_bound(objects.len(), left) {
        return true;
    }
    if !is_bound(objects.len(), right) {
        return true;
    }
    signed(
        positive,
        object_of(objects, left) == object_of(objects, right),
    )
}

/// Whether no static literal and no equality of a condition is false whose variables have objects. What stands in the
/// room is lost.
pub fn unrefuted_in(
    statics: &Statics,
    room: &mut Vec<u32>,
    cond: &Cond,
    objects: &[u32],
) -> Result<bool, Memory>
    ensures { IfOk result (λ b. b ≡ unrefuted (lifted_view statics.now) objects.now (cond_view cond.now)) }
{
    match cond {
        Cond::All(parts) => {
            for part in parts.slice() {
                if !unrefuted_in(statics, room, part, objects)? {
                    return Ok(false);
                }
            }
            Ok(true)
        }
        Cond::Atom {
            positive,
            pred,
            terms,
        } => Ok(literal_unrefuted(statics, room, *positive, *pred, terms.slice(), objects)?),
        Cond::Same {
            positive,
            left,
            right,
        } => Ok(equality_unrefuted(*positive, left, right, objects)),
    }
}
