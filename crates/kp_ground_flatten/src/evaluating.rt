ghost use Rattle.std.specs.Prelude.{◌≡◌, ◌++◌, [], OnOk};
ghost use Rattle.kp_ground_semantics.specs.Static.{settled, remaining};
ghost use Rattle.kp_ground_flatten.specs.Nodes.{cond_view};
ghost use Rattle.kp_names.specs.View.{lifted_view};

use crate::conditions::Conditions;
use crate::literal::BoundLit;
use crate::node::BoundCond;
use kp_base::Memory;
use kp_ground_instances::{Statics, signed};

/// Whether all static literals and all equalities of a condition are true.
pub fn is_settled(statics: &Statics, cond: &BoundCond) -> bool
    ensures { result ≡ settled (lifted_view statics.now) [] (cond_view cond.now) }
{
    match cond {
        BoundCond::All(parts) => {
            'parts: for part in *parts {
                if !is_settled(statics, part) {
                    return false;
                }
            }
            true
        }
        BoundCond::Atom {
            positive,
            pred,
            terms,
        } => {
            !statics.is_static(*pred) || signed(*positive, statics.is_true_at_first(*pred, terms))
        }
        BoundCond::Same {
            positive,
            left,
            right,
        } => signed(*positive, left == right),
    }
}

/// Adds the literals of a condition that aren't static, in text order.
pub fn add_remaining<'a>(
    statics: &Statics,
    cond: &BoundCond<'a>,
    conds: &mut Conditions<'a>,
) -> Result<(), Memory>
    ensures { OnOk result (conds.new ≡ conds.old ++ remaining (lifted_view statics.now) [] (cond_view cond.now)) }
{
    match cond {
        BoundCond::All(parts) => {
            'parts: for part in *parts {
                add_remaining(statics, part, conds)?;
            }
            Ok(())
        }
        BoundCond::Atom {
            positive,
            pred,
            terms,
        } => {
            if statics.is_static(*pred) {
                return Ok(());
            }
            conds.push(BoundLit {
                positive: *positive,
                pred: *pred,
                objects: *terms,
            })
        }
        BoundCond::Same { .. } => Ok(()),
    }
}
