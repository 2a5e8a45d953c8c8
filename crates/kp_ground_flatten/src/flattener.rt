ghost use Rattle.std.specs.Prelude.{◌≡◌, ◌<◌, Some, length, IfOk};
ghost use Rattle.kp_ground_flatten.specs.Bound.{flat_at};
ghost use Rattle.kp_names.specs.View.{lifted_view};

use crate::arena::give_up;
use crate::binding::bind;
use crate::flattening::flatten_over;
use bumpalo::Bump;
use kp_base::{Memory, Row};
use kp_ground_instances::Statics;
use kp_ground_semantics::Flat;
use std::alloc::Global;

/// Flattens instances one after another.
#[derive(Drop)]
pub struct Flattener<'s, 'l> {
    bump: Bump,
    /// The table of static predicates.
    pub statics: &'s Statics<'l>,
}

// The flat form of an instance, whose tree lies in the arena.
fn flat_in(
    bump: &Bump,
    alloc: Global,
    statics: &Statics,
    schema: u32,
    objects: &Row<u32>,
) -> Result<Flat, Memory>
    requires { schema < length (lifted_view statics.now).schemas }
    ensures { IfOk result (λ f. flat_at (lifted_view statics.now) schema objects.now ≡ Some f) }
{
    let node = bind(bump, alloc, statics.lifted(), schema, objects)?;
    let flat = flatten_over(alloc, statics, &node)?;
    Ok(flat)
}

impl<'s, 'l> Flattener<'s, 'l> {
    /// A flattener over this table.
    pub fn new(alloc: Global, statics: &'s Statics<'l>) -> Flattener<'s, 'l>
        ensures { result.statics ≡ statics.entry }
    {
        Flattener {
            bump: Bump::new(alloc),
            statics,
        }
    }

    /// The flat form of the schema of this number with these objects. Its tree lies in an arena that is reset afterwards.
    pub fn flat(&mut self, alloc: Global, schema: u32, objects: &Row<u32>) -> Result<Flat, Memory>
        requires { schema < length (lifted_view self.old.statics.now).schemas }
        ensures kept { self.new.statics ≡ self.old.statics }
        ensures flat { IfOk result (λ f. flat_at (lifted_view self.old.statics.now) schema objects.now ≡ Some f) }
    {
        let flat = flat_in(&self.bump, alloc, self.statics, schema, objects);
        self.clear(alloc);
        flat
    }

    // Gives up the tree.
    fn clear(&mut self, alloc: Global)
        ensures { self.new.statics ≡ self.old.statics }
    {
        give_up(&mut self.bump, alloc);
    }
}
