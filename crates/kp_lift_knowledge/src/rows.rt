//! The rows of bits, one for each literal.
ghost use Rattle.std.specs.Prelude.{◌≡◌, ◌<◌, ◌*◌, ◌&&◌, ◌||◌, not, cond, false, length, get_or, nat_eq, IfOk};
ghost use Rattle.kp_base.specs.Lit.{same_lit};
ghost use Rattle.kp_lift_knowledge.specs.Known.{known, IsLike};
ghost use Rattle.kp_lift_knowledge.specs.Tabled.{AreClear, Tells, Turns, IsBlank};

use kp_base::{Lit, Memory};
use kp_bits::Bits;
use std::alloc::Global;
use std::marker::Model;

/// For each literal the tags under which it is known. Contracts see the table of the bits.
#[derive(Drop)]
pub(crate) struct Rows {
    tags: u32,
    atoms: u32,
    // A row for each literal, by code, of a bit for each tag.
    rows: Vec<Bits>,
}

impl Model for Rows {
    ghost use Rattle.kp_lift_knowledge.specs.Known.{Table};
    ghost use Rattle.kp_lift_knowledge.specs.Tabled.{IsWhole};

    ghost Value = { Table };

    ghost view = { λ r. record { tags = r.tags; atoms = r.atoms; rows = r.rows.items } };

    ghost invariant = { λ r. IsWhole (record { tags = r.tags; atoms = r.atoms; rows = r.rows.items }) };
}

// n rows of zeros.
fn zeros(alloc: Global, n: u32, tags: u32) -> Result<Vec<Bits>, Memory>
    ensures { IfOk result (λ rows. AreClear tags n rows.items) }
{
    let mut rows = Vec::new(alloc);
    for _ in 0..n {
        rows.push(Bits::new(alloc, tags)?)?;
    }
    Ok(rows)
}

impl Rows {
    /// Nothing is known.
    pub(crate) fn new(alloc: Global, atoms: u32, tags: u32) -> Result<Rows, Memory>
        requires { atoms < 2147483648 }
        ensures { IfOk result (IsBlank tags atoms) }
    {
        let rows = zeros(alloc, 2 * atoms, tags)?;
        Ok(Rows { tags, atoms, rows })
    }

    /// The tags under which a literal is known.
    pub(crate) fn row(&self, lit: Lit) -> &Bits
        requires { lit.atom.0 < self.now.atoms }
        ensures { Tells self.now.tags result.now (λ t. known self.now t lit) }
    {
        &self.rows[lit.code() as usize]
    }

    /// Whether a literal is known under a tag.
    pub(crate) fn get(&self, t: u32, lit: Lit) -> bool
        requires tag { t < self.now.tags }
        requires lit { lit.atom.0 < self.now.atoms }
        ensures { result ≡ known self.now t lit }
    {
        self.rows[lit.code() as usize].get(t)
    }

    /// Notes that a literal is known under a tag.
    pub(crate) fn set(&mut self, t: u32, lit: Lit)
        requires tag { t < self.old.tags }
        requires lit { lit.atom.0 < self.old.atoms }
        ensures { Turns self.old self.new (λ s l. known self.old s l || (nat_eq s t && same_lit l lit)) }
    {
        self.rows[lit.code() as usize].set(t);
    }

    /// Notes that a literal is known under these tags too.
    pub(crate) fn join(&mut self, lit: Lit, more: &Bits)
        requires wide { length more.now ≡ self.old.tags }
        requires lit { lit.atom.0 < self.old.atoms }
        ensures { Turns self.old self.new (λ t l. known self.old t l || (same_lit lit l && get_or more.now t false)) }
    {
        self.rows[lit.code() as usize].or_with(more);
    }

    /// Notes that a literal is known under no other tags than these.
    pub(crate) fn keep(&mut self, lit: Lit, only: &Bits)
        requires wide { length only.now ≡ self.old.tags }
        requires lit { lit.atom.0 < self.old.atoms }
        ensures { Turns self.old self.new (λ t l. known self.old t l && (not (same_lit lit l) || get_or only.now t false)) }
    {
        self.rows[lit.code() as usize].and_with(only);
    }

    /// Takes the row of a literal over from another table.
    pub(crate) fn copy_row(&mut self, other: &Rows, lit: Lit)
        requires like { IsLike other.now self.old }
        requires lit { lit.atom.0 < self.old.atoms }
        ensures { Turns self.old self.new (λ t l. cond (same_lit lit l) (known other.now t l) (known self.old t l)) }
    {
        self.rows[lit.code() as usize].copy_from(other.row(lit));
    }
}
