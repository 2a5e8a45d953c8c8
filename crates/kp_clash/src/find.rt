ghost use Rattle.std.specs.Prelude.{◌≡◌, length, IfOk};
ghost use Rattle.kp_base.specs.Exclusive.{AreExclusive};
ghost use Rattle.kp_primes.specs.Held.{formula};
ghost use Rattle.kp_clash_exclusive.specs.Paired.{is_pair};
ghost use Rattle.kp_clash.specs.Settling.{AreNeverTogether};

use crate::settle::settle;
use kp_base::{Ground, Memory};
use kp_bits::Bits;
use kp_clash_exclusive::{Pairs, mark_clauses, table_size};
use kp_primes::Primes;
use std::alloc::Global;

// The pairs of so many atoms that no initial state has together.
fn never_together(alloc: Global, atoms: u32, primes: &Primes) -> Result<Pairs, Memory>
    requires { primes.now.atoms ≡ atoms }
    ensures { IfOk result (λ pairs. AreNeverTogether (formula primes.now) atoms (is_pair pairs)) }
{
    let Some(size) = table_size(atoms) else {
        return Err(Memory);
    };
    let mut table = Bits::new(alloc, size)?;
    let clauses = primes.clauses();
    mark_clauses(atoms, &mut table, clauses.slice());
    Ok(Pairs::of_table(atoms, table))
}

/// The exclusive pairs of atoms: the greatest set of pairs that no initial state has together and that each action keeps
/// apart. The initial states are those of the prime implicates.
pub fn exclusive(alloc: Global, ground: &Ground, primes: &Primes) -> Result<Pairs, Memory>
    requires { primes.now.atoms ≡ length ground.now.atoms }
    ensures { IfOk result (λ pairs. AreExclusive ground.now (formula primes.now) (length ground.now.atoms) (is_pair pairs)) }
{
    let Ok(atoms) = u32::try_from(ground.atoms.len()) else {
        return Err(Memory);
    };
    let mut pairs = never_together(alloc, atoms, primes)?;
    settle(alloc, ground, &mut pairs)?;
    Ok(pairs)
}
