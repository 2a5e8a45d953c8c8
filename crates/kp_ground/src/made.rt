use kp_base::Effect;
use std::hash::{Hash, Hasher};

/// An effect by number, as a table keeps it.
#[derive(Drop)]
pub struct Made {
    /// The effect.
    pub effect: Effect,
}

impl PartialEq for Made {
    ghost use Rattle.std.specs.Cmp.{on_equiv, and_equiv, partial_equiv_from_equiv};
    ghost use Rattle.kp_base.proofs.Lits.{same_lits};
    ghost use Rattle.kp_base.proofs.Sets.{same_sets};
    ghost use Rattle.kp_ground.specs.Made.{same_made};

    ghost eq = { λ x y. same_made x.effect y.effect };

    ghost laws = { partial_equiv_from_equiv (and_equiv (on_equiv (λ m. m.effect.result) same_lits) (on_equiv (λ m. m.effect.cond) same_sets)) };

    fn eq(&self, other: &Made) -> bool {
        self.effect.result == other.effect.result
            && self.effect.cond.slice() == other.effect.cond.slice()
    }
}

impl Eq for Made {
    ghost use Rattle.std.specs.Cmp.{on_equiv, and_equiv};
    ghost use Rattle.kp_base.proofs.Lits.{same_lits};
    ghost use Rattle.kp_base.proofs.Sets.{same_sets};

    ghost laws = { and_equiv (on_equiv (λ m. m.effect.result) same_lits) (on_equiv (λ m. m.effect.cond) same_sets) };
}

impl Hash for Made {
    ghost use Rattle.std.specs.Hash as fed;
    ghost use Rattle.std.specs.Prelude.{◌++◌};
    ghost use Rattle.std.proofs.Common.{ap₂};
    ghost use Rattle.std.proofs.lemmas.Bool.{and_parts};
    ghost use Rattle.kp_base.specs.Lit.{same_lit};
    ghost use Rattle.kp_base.specs.LitSet.{same_set};
    ghost use Rattle.kp_base.proofs.Lits.{same_lit-true};
    ghost use Rattle.kp_base.proofs.Sets.{same_set-true};
    ghost use Rattle.kp_ground.specs.Made.{fed_lit};

    ghost hash_input = { λ m. fed_lit m.effect.result ++ fed.slice fed_lit m.effect.cond };

    ghost respects_eq = { λ x y h. ap₂ (λ r c. fed_lit r ++ fed.slice fed_lit c)
        (same_lit-true x.effect.result y.effect.result (and_parts (same_lit x.effect.result y.effect.result) (same_set x.effect.cond y.effect.cond) h).0)
        (same_set-true x.effect.cond y.effect.cond (and_parts (same_lit x.effect.result y.effect.result) (same_set x.effect.cond y.effect.cond) h).1) };

    fn hash<H: Hasher>(&self, state: &mut H) {
        self.effect.result.hash(state);
        self.effect.cond.slice().hash(state);
    }
}
