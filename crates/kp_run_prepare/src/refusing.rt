ghost use Rattle.std.specs.Prelude.{◌≡◌, IfOk};
ghost use Rattle.kp_run_messages.specs.Refusals.{nothing};
ghost use Rattle.kp_run_prepare.specs.Refusing.{refuses, named_in, EndsBy};

use crate::prepared::Early;
use kp_base::{Ground, Memory, Refused, Row, Stop};
use kp_run_messages::{Nameable, refusal};
use kp_run_outcome::{Outcome, Status};
use std::alloc::Global;

/// A refusal is printed, with what it may name.
pub fn refuse_with(alloc: Global, named: &Nameable<'_>, refused: Refused) -> Result<Outcome, Memory>
    ensures { IfOk result (λ o. o ≡ refuses named.now refused) }
{
    let text = refusal(alloc, named, &refused)?;
    Ok(Outcome {
        status: Status::Refused(refused),
        puts: Row::new(alloc),
        text,
    })
}

/// A refusal is printed that names nothing by number.
pub fn refuse(alloc: Global, refused: Refused) -> Result<Outcome, Memory>
    ensures { IfOk result (λ o. o ≡ refuses nothing refused) }
{
    refuse_with(alloc, &Nameable::nothing(), refused)
}

/// A refusal is printed that may name the atoms and actions of a ground problem.
pub fn refuse_in(alloc: Global, ground: &Ground, refused: Refused) -> Result<Outcome, Memory>
    ensures { IfOk result (λ o. o ≡ refuses (named_in ground.now) refused) }
{
    let named = Nameable {
        atoms: ground.atoms.slice(),
        actions: ground.actions.slice(),
        steps: &[],
    };
    refuse_with(alloc, &named, refused)
}

/// Where a call stopped, a command ends with its refusal, which names nothing by number.
pub fn ended_by(alloc: Global, stop: Stop) -> Early
    ensures { EndsBy nothing stop result }
{
    match stop {
        Stop::Refused(refused) => match refuse(alloc, refused) {
            Ok(outcome) => Early::With(outcome),
            Err(_) => Early::Memory,
        },
        Stop::Memory => Early::Memory,
    }
}

/// The same where the refusal may name the atoms and actions of a ground problem.
pub fn ended_in(alloc: Global, ground: &Ground, stop: Stop) -> Early
    ensures { EndsBy (named_in ground.now) stop result }
{
    match stop {
        Stop::Refused(refused) => match refuse_in(alloc, ground, refused) {
            Ok(outcome) => Early::With(outcome),
            Err(_) => Early::Memory,
        },
        Stop::Memory => Early::Memory,
    }
}
