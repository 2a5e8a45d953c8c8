ghost use Rattle.std.specs.Prelude.{◌≡◌, true, IfOk};
ghost use Rattle.std.specs.List.{list_all};
ghost use Rattle.kp_base.specs.Implicates.{are_below};
ghost use Rattle.kp_primes.specs.Held.{formula};
ghost use Rattle.kp_primes_first_model.specs.Ordered.{AnswersFirst};
ghost use Rattle.kp_cover.specs.Valid.{is_outside, AnswersValid};

use crate::deny::are_soon_valid;
use crate::left::first_places;
use crate::outside::Outside;
use kp_base::{AtomId, LitSet, Memory, Row};
use kp_primes::Primes;
use kp_primes_first_model::{first, first_goes_by_what_passes};
use std::alloc::Global;

/// Whether each initial state satisfies one of some tags.
#[derive(Debug, Drop)]
pub enum Validity {
    /// Each does.
    Valid,
    /// Some satisfies none: the atoms that are true in the first such state, in order.
    Invalid(Row<AtomId>),
}

// The first initial state that satisfies none of the tags: its atoms, in order; none where there is no such state.
fn first_outside(
    alloc: Global,
    primes: &Primes,
    tags: &[LitSet],
) -> Result<Option<Row<AtomId>>, Memory>
    requires { list_all (are_below primes.now.atoms) tags.now ≡ true }
    ensures { IfOk result (AnswersFirst primes.now.atoms (is_outside (formula primes.now) tags.now)) }
{
    first_goes_by_what_passes();
    let left = first_places(alloc, tags.len())?;
    let outside = Outside {
        atoms: primes.atoms(),
        tags,
        left,
    };
    let state = first(alloc, primes, &outside)?;
    Ok(state)
}

/// Whether each initial state satisfies one of the tags, and else the first that satisfies none: at the first atom in
/// which two states differ, the one without it comes first. The tags must be of the atoms (`are_of_atoms`).
pub fn valid(alloc: Global, primes: &Primes, tags: &Row<LitSet>) -> Result<Validity, Memory>
    requires { list_all (are_below primes.now.atoms) tags.now ≡ true }
    ensures { IfOk result (AnswersValid primes.now.atoms (formula primes.now) tags.now) }
{
    if are_soon_valid(alloc, primes, tags.slice())? {
        return Ok(Validity::Valid);
    }
    match first_outside(alloc, primes, tags.slice())? {
        Some(state) => Ok(Validity::Invalid(state)),
        None => Ok(Validity::Valid),
    }
}
