//! What is noted of an action before its effects are looked at one by one.
ghost use Rattle.std.specs.Prelude.{◌≡◌, ◌≤◌, true, length};
ghost use Rattle.kp_base.specs.declared.ground.Action.{Action as ActionOf};
ghost use Rattle.kp_clash_exclusive.specs.Left.{Notes};

use crate::Pairs;
use crate::added::atoms_added;
use crate::asked::atoms_asked;
use crate::between::{SLOTS, spans_of};
use crate::left::left_by_long;
use crate::sure::atoms_deleted;
use crate::words::{WORDS, blocks_of};
use kp_base::Action;

/// Between which places deletes stand, by the slots of their atoms, the atoms that it asks for, those that it adds, and those that it surely deletes.
#[derive(Drop)]
pub struct Tables {
    pub firsts: [usize; SLOTS],
    pub ends: [usize; SLOTS],
    pub asked: [u64; WORDS],
    pub added: [u64; WORDS],
    pub sure: [u64; WORDS],
    // The atoms that a long precondition doesn't exclude, and the blocks of the atoms that the action adds; no clause
    // speaks of them.
    pub left: [u64; WORDS],
    pub blocks: u64,
}

impl Tables {
    /// What is noted of the action.
    pub fn of(pairs: &Pairs, action: &Action) -> Tables
        ensures { Notes result action.now }
    {
        let (firsts, ends) = spans_of(action.effects.slice());
        let added = atoms_added(action.effects.slice());
        Tables {
            firsts,
            ends,
            asked: atoms_asked(action.pre.slice()),
            added,
            sure: atoms_deleted(action),
            left: left_by_long(pairs, action.pre.slice()),
            blocks: blocks_of(&added),
        }
    }

    /// What holds of each small action.
    pub fn any() -> Tables
        ensures { (a : ActionOf) → length a.effects ≤ 8 → Notes result a }
    {
        Tables {
            firsts: [0; SLOTS],
            ends: [8; SLOTS],
            asked: [u64::MAX; WORDS],
            added: [u64::MAX; WORDS],
            sure: [0; WORDS],
            left: [0; WORDS],
            blocks: u64::MAX,
        }
    }
}

/// Whether the action is so small that tables of its own aren't worth their making.
pub fn is_small(action: &Action) -> bool
    ensures { result ≡ true → length action.now.effects ≤ 8 }
{
    action.effects.len() <= 8 && action.pre.slice().len() <= 8
}
