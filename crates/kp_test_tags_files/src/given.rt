//! What the tests are given: a ground problem of three atoms.
ghost use Rattle.std.specs.Prelude.{◌≡◌, IfOk, length};

use kp_base::{Atoms, Ground, GroundName, LitSet, Memory, Row, Text};
use kp_test_problems::name;
use std::alloc::Global;

// A name with one object.
fn name_with(alloc: Global, head: &[u8], object: &[u8]) -> Result<GroundName, Memory> {
    let mut name = name(alloc, head)?;
    name.objects.push(Text::from_slice(alloc, object)?)?;
    Ok(name)
}

/// A ground problem with the atoms `x1`, `x2` and `at b`.
pub(crate) fn three_atoms(alloc: Global) -> Result<Ground, Memory>
    ensures { IfOk result (λ ground. length ground.atoms ≡ 3) }
{
    let mut atoms = Row::new(alloc);
    atoms.push(name(alloc, b"x1")?)?;
    atoms.push(name(alloc, b"x2")?)?;
    atoms.push(name_with(alloc, b"at", b"b")?)?;
    Ok(Ground {
        atoms,
        table: Atoms::new(alloc),
        actions: Row::new(alloc),
        goal: LitSet::new(alloc),
    })
}
