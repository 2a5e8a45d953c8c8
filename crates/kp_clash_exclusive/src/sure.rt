//! Which atoms an action deletes wherever it is applicable.
ghost use Rattle.std.specs.Prelude.{◌≡◌, ◌&&◌, not};
ghost use Rattle.kp_base.specs.Implicates.{is_within};
ghost use Rattle.kp_base.specs.Lists.{Member};
ghost use Rattle.kp_clash_exclusive.specs.Left.{AreDeleted};

use crate::words::{WORDS, set_bit};
use kp_base::{Action, Effect};

// Whether the effect deletes its atom wherever the action is applicable.
fn surely_deletes(action: &Action, effect: &Effect) -> bool
    ensures { result ≡ (not effect.now.result.positive && is_within effect.now.cond action.now.pre) }
{
    !effect.result.positive && effect.cond.within(&action.pre)
}

fn note(words: &mut [u64; WORDS], action: &Action, effect: &Effect)
    requires of_action { Member action.now.effects effect.now }
    requires before { AreDeleted words.old action.now }
    ensures { AreDeleted words.new action.now }
{
    if surely_deletes(action, effect) {
        set_bit(words, effect.result.atom);
    }
}

/// The atoms below 65,536 that the action deletes with a condition within its precondition.
pub(crate) fn atoms_deleted(action: &Action) -> [u64; WORDS]
    ensures { AreDeleted result action.now }
{
    let mut words = [0u64; WORDS];
    for effect in action.effects.slice() {
        note(&mut words, action, effect);
    }
    words
}
