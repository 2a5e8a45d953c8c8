ghost use Rattle.std.specs.Prelude.{◌≡◌};
ghost use Rattle.std.specs.List.{list_any, list_all};
ghost use Rattle.kp_base.specs.Lit.{has};

use kp_base::{LitSet, Row};

// Whether the set has a literal of the clause.
fn meets(closure: &LitSet, clause: &LitSet) -> bool
    ensures { result ≡ list_any (has closure.now) clause.now }
{
    clause.slice().iter().any(|l| closure.has(*l))
}

/// Whether the set has a literal of each clause.
pub(crate) fn meets_all(closure: &LitSet, clauses: &[LitSet]) -> bool
    ensures { result ≡ list_all (list_any (has closure.now)) clauses.now }
{
    clauses.iter().all(|c| meets(closure, c))
}

/// Whether each set has a literal of each clause.
pub fn covers(closures: &Row<LitSet>, clauses: &Row<LitSet>) -> bool
    ensures { result ≡ list_all (λ k. list_all (list_any (has k)) clauses.now) closures.now }
{
    closures
        .slice()
        .iter()
        .all(|k| meets_all(k, clauses.slice()))
}
