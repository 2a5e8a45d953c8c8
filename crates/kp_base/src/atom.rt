ghost use Rattle.std.specs.Prelude.{◌≡◌};
ghost use Rattle.kp_base.specs.Atoms.{atom, kept_atom, same_atom};

use indexmap::Equivalent;

/// An atom that is looked up: its predicate, and its objects where they lie.
#[derive(Clone, Copy, PartialEq, Eq, Hash)]
pub struct AtomRef<'a> {
    /// The predicate.
    pub pred: u32,
    /// The objects, in order.
    pub objects: &'a [u32],
}

impl<'a> AtomRef<'a> {
    /// Whether a table keeps the atom so.
    pub fn names(&self, key: &(u32, Vec<u32>)) -> bool
        ensures { result ≡ same_atom (atom self.now.pred self.now.objects.now) (kept_atom key.now) }
    {
        self.pred == key.0 && self.objects == key.1.as_slice()
    }
}

impl<'a> Equivalent<(u32, Vec<u32>)> for &AtomRef<'a> {
    ghost use Rattle.std.specs.Prelude.{nat_eq, ◌&&◌};
    ghost use Rattle.std.specs.Cmp.Lexicographic.{pointwise};
    ghost use Rattle.std.specs.Cmp.Rules.{comparing, hashing};
    ghost use Rattle.std.proofs.Common.{rules};

    ghost equivalent = { λ q k. nat_eq q.now.pred k.0 && pointwise nat_eq q.now.objects.now k.1.items };

    ghost respects_hash = { Prim.search (hashing, rules) };

    ghost respects_eq = { Prim.search (comparing, rules) };

    fn equivalent(&self, key: &(u32, Vec<u32>)) -> bool {
        self.pred == key.0 && self.objects == key.1.as_slice()
    }
}
