//! The step of an action, effect by effect and 64 tags at a time.
ghost use Rattle.std.specs.Prelude.{◌≡◌, ◌<◌, ◌&&◌, ◌||◌, not, cond, true, length, nat_eq};
ghost use Rattle.std.specs.List.{list_any, list_all};
ghost use Rattle.kp_base.specs.Planning.{negated, same_lit, effect_below, fires, persists};
ghost use Rattle.kp_lift_knowledge.specs.Known.{known, IsLike};
ghost use Rattle.kp_lift_knowledge.specs.Tabled.{Turns, touches};

use crate::met::Met;
use crate::rows::Rows;
use kp_base::{Effect, Lit};

// The negation of the result stays known only where the effect is known not to fire.
fn cancel(after: &mut Rows, before: &Rows, met: &mut Met, e: &Effect)
    requires like { IsLike after.old before.now }
    requires wide { length met.old ≡ before.now.tags }
    requires below { effect_below before.now.atoms e.now ≡ true }
    ensures turns { Turns after.old after.new (λ t l. known after.old t l && (not (same_lit e.now.result (negated l)) || list_any (λ c. known before.now t (negated c)) e.now.cond)) }
    ensures wide { length met.new ≡ before.now.tags }
{
    met.by_any_negation(before, e.cond.slice());
    after.keep(e.result.negated(), met.tags());
}

/// What was known stays known only where each effect against it is known not to fire.
pub(crate) fn cancel_all(after: &mut Rows, before: &Rows, met: &mut Met, effects: &[Effect])
    requires like { IsLike after.old before.now }
    requires wide { length met.old ≡ before.now.tags }
    requires below { list_all (effect_below before.now.atoms) effects.now ≡ true }
    ensures turns { Turns after.old after.new (λ t l. known after.old t l && persists effects.now (known before.now t) l) }
    ensures wide { length met.new ≡ before.now.tags }
{
    for e in effects {
        cancel(after, before, met, e);
    }
}

// The result is known where the condition was.
fn support(after: &mut Rows, before: &Rows, met: &mut Met, e: &Effect)
    requires like { IsLike after.old before.now }
    requires wide { length met.old ≡ before.now.tags }
    requires below { effect_below before.now.atoms e.now ≡ true }
    ensures turns { Turns after.old after.new (λ t l. known after.old t l || (same_lit e.now.result l && list_all (known before.now t) e.now.cond)) }
    ensures wide { length met.new ≡ before.now.tags }
{
    met.by_all(before, e.cond.slice());
    after.join(e.result, met.tags());
}

/// What the effects make true is known where they are known to fire.
pub(crate) fn support_all(after: &mut Rows, before: &Rows, met: &mut Met, effects: &[Effect])
    requires like { IsLike after.old before.now }
    requires wide { length met.old ≡ before.now.tags }
    requires below { list_all (effect_below before.now.atoms) effects.now ≡ true }
    ensures turns { Turns after.old after.new (λ t l. known after.old t l || fires effects.now (known before.now t) l) }
    ensures wide { length met.new ≡ before.now.tags }
{
    for e in effects {
        support(after, before, met, e);
    }
}

// Takes over the rows of a literal and of its negation.
fn take_over(table: &mut Rows, next: &Rows, lit: Lit)
    requires like { IsLike next.now table.old }
    requires lit { lit.atom.0 < table.old.atoms }
    ensures { Turns table.old table.new (λ t l. cond (nat_eq lit.atom.0 l.atom.0) (known next.now t l) (known table.old t l)) }
{
    table.copy_row(next, lit);
    table.copy_row(next, lit.negated());
}

/// Takes over the rows of the literals that the effects touch.
pub(crate) fn take_over_all(table: &mut Rows, next: &Rows, effects: &[Effect])
    requires like { IsLike next.now table.old }
    requires below { list_all (effect_below table.old.atoms) effects.now ≡ true }
    ensures { Turns table.old table.new (λ t l. cond (touches effects.now l) (known next.now t l) (known table.old t l)) }
{
    for e in effects {
        take_over(table, next, e.result);
    }
}
