ghost use Rattle.std.specs.Prelude.{◌≡◌, ◌++◌, ◌&&◌, true};
ghost use Rattle.kp_base.specs.Implicates.{is_within};
ghost use Rattle.kp_base.specs.Lit.{positive, negative, same_lit};
ghost use Rattle.kp_base.specs.Steps.{has as has_literal};

use kp_base::{AtomId, Effect, Lit};

pub fn holding(atom: AtomId) -> Lit
    ensures { result ≡ positive atom.0 }
{
    Lit {
        atom,
        positive: true,
    }
}

fn deletes(effect: &Effect, atom: AtomId) -> bool
    ensures { result ≡ same_lit effect.now.result (negative atom.0) }
{
    effect.result
        == Lit {
            atom,
            positive: false,
        }
}

fn is_among(pre: &[Lit], cond: &[Lit], other: &[Lit], lit: Lit) -> bool
    ensures { result ≡ has_literal (pre.now ++ (cond.now ++ other.now)) lit }
{
    pre.iter()
        .chain(cond.iter().chain(other.iter()))
        .any(|l| lit == *l)
}

fn all_among(pre: &[Lit], cond: &[Lit], other: &[Lit], lits: &[Lit]) -> bool
    ensures { result ≡ is_within lits.now (pre.now ++ (cond.now ++ other.now)) }
{
    lits.iter().all(|l| is_among(pre, cond, other, *l))
}

/// Whether the effect deletes the atom with a condition within these literals.
pub(crate) fn deletes_by(
    pre: &[Lit],
    cond: &[Lit],
    other: &[Lit],
    q: AtomId,
    delete: &Effect,
) -> bool
    ensures { result ≡ (same_lit delete.now.result (negative q.0) && is_within delete.now.cond (pre.now ++ (cond.now ++ other.now))) }
{
    deletes(delete, q) && all_among(pre, cond, other, delete.cond.slice())
}
