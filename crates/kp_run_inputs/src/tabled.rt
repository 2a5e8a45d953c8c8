//! A problem with its relevance, and beside it a table of tags and merges.
ghost use Rattle.std.specs.Prelude.{◌<◌, IfOk, length};
ghost use Rattle.kp_base.specs.declared.ground.Merge.{Merge};
ghost use Rattle.kp_base.specs.Entailed.{AreValid, IsTable};
ghost use Rattle.kp_base.specs.Lists.{Member};
ghost use Rattle.kp_cover.specs.Coverage.{AnswersCoverage};
ghost use Rattle.kp_primes.specs.Held.{formula};
ghost use Rattle.kp_run_inputs.specs.Props.{IsTable-prop};

use crate::related::Related;
use kp_base::{Memory, TagTable};
use kp_cover::{Coverage, coverage};
use std::alloc::Global;

/// A problem with a table of tags and merges, which is right, and whose merges are valid.
#[derive(Drop)]
pub struct Tabled {
    /// The problem.
    pub related: Related,
    /// The table.
    pub table: TagTable,
    pub ghost right: { IsTable related.prepared.ground (formula related.prepared.primes) table } by { IsTable-prop related.prepared.ground (formula related.prepared.primes) table },
    pub ghost valid: { AreValid (formula related.prepared.primes) table },
    pub ghost targets: { (m : Merge) → Member table.merges m → m.target.atom.0 < length related.prepared.ground.atoms },
}

impl Tabled {
    /// Which targets the table covers.
    pub fn coverage(&self, alloc: Global) -> Result<Coverage, Memory>
        ensures { IfOk result (AnswersCoverage self.now.related.prepared.ground (formula self.now.related.prepared.primes) self.now.table) }
    {
        let prepared = &self.related.prepared;
        coverage(
            alloc,
            &prepared.ground,
            &prepared.primes,
            &self.related.relevance,
            &self.table,
        )
    }
}
