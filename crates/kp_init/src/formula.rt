ghost use Rattle.std.specs.Prelude.{◌≡◌, IfOk};
ghost use Rattle.kp_names.specs.View.{lifted_view};
ghost use Rattle.kp_ground_semantics.specs.Ground.{ground_of};
ghost use Rattle.kp_init.specs.Initial.{closed_of, initial_over, initial_of};

use crate::clauses::clauses_of;
use crate::closed::closed_atoms;
use crate::named::Named;
use kp_base::{AtomId, Atoms, Ground, Initial, Memory, Row};
use kp_names::Lifted;
use std::alloc::Global;

// The numbers of the atoms that no item of a problem names.
fn closed_by(alloc: Global, lifted: &Lifted, atoms: &Atoms) -> Result<Row<AtomId>, Memory>
    ensures { IfOk result (λ closed. closed ≡ closed_of (lifted_view lifted.now) atoms.now) }
{
    let named = Named::of(alloc, lifted)?;
    let closed = closed_atoms(alloc, atoms, &named)?;
    Ok(closed)
}

// The initial formula over these atoms: the clauses of the items in order, and the atoms that no item names.
fn formula_over(alloc: Global, lifted: &Lifted, atoms: &Atoms) -> Result<Initial, Memory>
    ensures { IfOk result (λ i. i ≡ initial_over (lifted_view lifted.now) atoms.now) }
{
    Ok(Initial {
        clauses: clauses_of(alloc, atoms, lifted.init.slice())?,
        closed: closed_by(alloc, lifted, atoms)?,
    })
}

/// The initial formula of a ground problem, which is that of the problem by number: the clauses of its items in order,
/// and the atoms that no item names.
pub fn initial(alloc: Global, lifted: &Lifted, ground: &Ground) -> Result<Initial, Memory>
    requires { ground.now ≡ ground_of (lifted_view lifted.now) }
    ensures { IfOk result (λ i. i ≡ initial_of (lifted_view lifted.now)) }
{
    let formula = formula_over(alloc, lifted, &ground.table)?;
    Ok(formula)
}
