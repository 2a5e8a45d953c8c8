ghost use Rattle.std.specs.Prelude.{◌≡◌, [], map, fold, OnOk};
ghost use Rattle.kp_ground_semantics.specs.Flattening.{under, flat};
ghost use Rattle.kp_ground_flatten.specs.Nodes.{eff_view};
ghost use Rattle.kp_names.specs.View.{lifted_view};

use crate::conditions::Conditions;
use crate::evaluating::{add_remaining, is_settled};
use crate::literal::BoundLit;
use crate::node::BoundEff;
use crate::sink::Sink;
use kp_base::Memory;
use kp_ground_instances::Statics;
use std::alloc::Global;

/// Hands over the flat effects of a bound effect under further conditions, which are the same afterwards.
pub fn hand_bound<'a, S: Sink>(
    alloc: Global,
    statics: &Statics,
    eff: &BoundEff<'a>,
    conds: &mut Conditions<'a>,
    sink: &mut S,
) -> Result<(), Memory>
    ensures kept { OnOk result (conds.new ≡ conds.old) }
    ensures taken { OnOk result (sink.new ≡ fold S.takes sink.old (map (under conds.old) (flat (lifted_view statics.now) [] (eff_view eff.now)))) }
{
    match eff {
        BoundEff::All(parts) => {
            'parts: for part in *parts {
                hand_bound(alloc, statics, part, conds, sink)?;
            }
            Ok(())
        }
        BoundEff::When(cond, body) => {
            if !is_settled(statics, cond) {
                return Ok(());
            }
            let outer = conds.len();
            add_remaining(statics, cond, conds)?;
            hand_bound(alloc, statics, body, conds, sink)?;
            conds.truncate(outer);
            Ok(())
        }
        BoundEff::Atom {
            positive,
            pred,
            terms,
        } => {
            let made = BoundLit {
                positive: *positive,
                pred: *pred,
                objects: *terms,
            };
            sink.take(alloc, conds.slice(), &made)
        }
    }
}
