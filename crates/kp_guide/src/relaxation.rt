ghost use Rattle.std.specs.Prelude.{◌≡◌, true, length};
ghost use Rattle.kp_classic.specs.Fits.{are_below};

use crate::Index;
use indexmap::IndexSet;
use kp_base::Row;

/// A task without deletes, with those facts and rules alone that its goal may need: each fact has a place, and the goal and the
/// rules name the places.
#[derive(Drop)]
pub(crate) struct Relaxation {
    pub(crate) facts: IndexSet<u32>,
    pub(crate) goal: Row<u32>,
    pub(crate) index: Index,
    ghost inside: { are_below (length facts.keys) goal ≡ true },
    ghost wide: { length index.users.items ≡ length facts.keys },
}
