ghost use Rattle.std.specs.Prelude.{◌≡◌, ◌%◌, true, not, List};
ghost use Rattle.std.specs.List.{list_any};
ghost use Rattle.kp_base.specs.declared.ground.Effect.{Effect as EffectOf};
ghost use Rattle.kp_clash.specs.Searching.{KeepsMarks, is_noted, all_noted, may_be_deleted};

use kp_base::{AtomId, Effect};
use kp_clash_exclusive::SLOTS;

// Marks the slot of the atom of an effect that deletes it.
fn note(slots: &mut [bool; SLOTS], effect: &Effect)
    ensures noted { is_noted slots.new effect.now ≡ true }
    ensures keeps { KeepsMarks slots.old slots.new }
{
    if !effect.result.positive {
        slots[effect.result.atom.0 as usize % SLOTS] = true;
    }
}

/// A slot for each number modulo 4,096, marked where some effect deletes an atom of that slot.
pub(crate) fn slots_of_deletes(effects: &[Effect]) -> [bool; SLOTS]
    ensures { all_noted result effects.now ≡ true }
{
    let mut slots = [false; SLOTS];
    for effect in effects {
        note(&mut slots, effect);
    }
    slots
}

/// All slots marked, which is right for any effects.
pub(crate) fn all_slots() -> [bool; SLOTS]
    ensures { (effects : List EffectOf) → all_noted result effects ≡ true }
{
    [true; SLOTS]
}

/// Whether some effect deletes its atom.
pub(crate) fn deletes_some(effects: &[Effect]) -> bool
    ensures { result ≡ list_any (λ e. not e.result.positive) effects.now }
{
    effects.iter().any(|e| !e.result.positive)
}

/// Whether the slot of the atom is marked; if not, no effect deletes the atom.
pub(crate) fn may_be_deleted(slots: &[bool; SLOTS], atom: AtomId) -> bool
    ensures { result ≡ may_be_deleted slots.now atom.0 }
{
    slots[atom.0 as usize % SLOTS]
}
