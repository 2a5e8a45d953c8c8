//! A prepared problem, and beside it which literals are relevant to which.
ghost use Rattle.std.specs.Prelude.{◌≡◌, IfOk};
ghost use Rattle.kp_relevance.specs.Relevant.{ArePairsOf};

use kp_base::Memory;
use kp_relevance::Relevance;
use kp_run_prepare::Prepared;
use std::alloc::Global;

/// A prepared problem, with what is relevant in it.
#[derive(Drop)]
pub struct Related {
    /// The ground problem and its prime implicates.
    pub prepared: Prepared,
    /// Which of its literals are relevant to which.
    pub relevance: Relevance,
    pub ghost pairs: { ∥ ArePairsOf prepared.ground relevance ∥₁ },
}

impl Related {
    /// Finds what is relevant in a prepared problem.
    pub fn of(alloc: Global, prepared: Prepared) -> Result<Related, Memory>
        ensures { IfOk result (λ x. x.prepared ≡ prepared) }
    {
        let relevance = Relevance::of(alloc, &prepared.ground)?;
        Ok(Related {
            prepared,
            relevance,
        })
    }
}
