//! A row of the tags under which conditions are met.
ghost use Rattle.std.specs.Prelude.{◌≡◌, ◌<◌, ◌&&◌, ◌||◌, true, false, length, get_or, IfOk};
ghost use Rattle.std.specs.List.{list_any, list_all};
ghost use Rattle.kp_base.specs.Lit.{negated};
ghost use Rattle.kp_base.specs.Implicates.{are_below};
ghost use Rattle.kp_lift_knowledge.specs.Known.{known};
ghost use Rattle.kp_lift_knowledge.specs.Tabled.{Tells};

use crate::rows::Rows;
use kp_base::{Lit, Memory};
use kp_bits::Bits;
use std::alloc::Global;
use std::marker::Model;

/// A row of tags. Contracts see the list of the bits.
#[derive(Drop)]
pub(crate) struct Met {
    row: Bits,
    // What a row begins with: no tags, or all.
    none: Bits,
    all: Bits,
}

impl Model for Met {
    ghost use Rattle.std.specs.Prelude.{List, Bool, length};
    ghost use Rattle.kp_lift_knowledge.specs.Tabled.{AreEnds};

    ghost Value = { List Bool };

    ghost view = { λ m. m.row };

    ghost invariant = { λ m. AreEnds (length m.row) m.none m.all };
}

// A row of n ones.
fn ones(alloc: Global, n: u32) -> Result<Bits, Memory>
    ensures { IfOk result (λ row. Tells n row (λ t. true)) }
{
    let mut row = Bits::new(alloc, n)?;
    for t in 0..n {
        row.set(t);
    }
    Ok(row)
}

impl Met {
    /// A row for so many tags.
    pub(crate) fn new(alloc: Global, tags: u32) -> Result<Met, Memory>
        ensures { IfOk result (λ met. length met ≡ tags) }
    {
        let row = Bits::new(alloc, tags)?;
        let none = Bits::new(alloc, tags)?;
        let all = ones(alloc, tags)?;
        Ok(Met { row, none, all })
    }

    /// The tags.
    pub(crate) fn tags(&self) -> &Bits
        ensures { result.now ≡ self.now }
    {
        &self.row
    }

    // No tags.
    fn clear(&mut self)
        ensures { Tells (length self.old) self.new (λ t. false) }
    {
        self.row.copy_from(&self.none);
    }

    // All tags.
    fn fill(&mut self)
        ensures { Tells (length self.old) self.new (λ t. true) }
    {
        self.row.copy_from(&self.all);
    }

    // The tags under which a literal is known come in.
    fn add(&mut self, table: &Rows, lit: Lit)
        requires wide { length self.old ≡ table.now.tags }
        requires lit { lit.atom.0 < table.now.atoms }
        ensures { Tells table.now.tags self.new (λ t. get_or self.old t false || known table.now t lit) }
    {
        self.row.or_with(table.row(lit));
    }

    // Only the tags under which a literal is known stay.
    fn keep(&mut self, table: &Rows, lit: Lit)
        requires wide { length self.old ≡ table.now.tags }
        requires lit { lit.atom.0 < table.now.atoms }
        ensures { Tells table.now.tags self.new (λ t. get_or self.old t false && known table.now t lit) }
    {
        self.row.and_with(table.row(lit));
    }

    /// The tags under which the negation of one of the literals is known.
    pub(crate) fn by_any_negation(&mut self, table: &Rows, lits: &[Lit])
        requires wide { length self.old ≡ table.now.tags }
        requires lits { are_below table.now.atoms lits.now ≡ true }
        ensures { Tells table.now.tags self.new (λ t. list_any (λ l. known table.now t (negated l)) lits.now) }
    {
        self.clear();
        for l in lits {
            self.add(table, l.negated());
        }
    }

    /// The tags under which each of the literals is known.
    pub(crate) fn by_all(&mut self, table: &Rows, lits: &[Lit])
        requires wide { length self.old ≡ table.now.tags }
        requires lits { are_below table.now.atoms lits.now ≡ true }
        ensures { Tells table.now.tags self.new (λ t. list_all (known table.now t) lits.now) }
    {
        self.fill();
        for l in lits {
            self.keep(table, *l);
        }
    }
}
