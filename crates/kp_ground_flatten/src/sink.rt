ghost use Rattle.std.specs.Prelude.{◌≡◌, map, OnOk};
ghost use Rattle.kp_ground_semantics.specs.declared.flat.FlatEffect.{FlatEffect as Told};
ghost use Rattle.kp_ground_flatten.specs.Literals.{lit_view};

use crate::literal::BoundLit;
use kp_base::Memory;
use std::alloc::Global;

/// What takes flat effects one after another.
pub trait Sink {
    /// What it is after one more effect.
    ghost takes: { Self → Told → Self };

    /// Takes the effect that makes a literal under some conditions.
    fn take(&mut self, alloc: Global, conds: &[BoundLit], made: &BoundLit) -> Result<(), Memory>
        ensures { OnOk result (self.new ≡ takes self.old (record { cond = map lit_view conds.now; result = lit_view made.now })) };
}
