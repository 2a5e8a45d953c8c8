//! What is asked of a table: whether what a step asks for is known.
ghost use Rattle.std.specs.Prelude.{◌≡◌, ◌<◌, ◌&&◌, not, true, Some, nat_lt, IfSome, IfNone};
ghost use Rattle.std.specs.List.{list_all};
ghost use Rattle.kp_base.specs.Planning.{IsAscending, are_below, IsLeastMissing, may_merge};
ghost use Rattle.kp_lift_knowledge.specs.Known.{known};

use crate::rows::Rows;
use kp_base::{Lit, Merge};

/// The first of the literals that isn't known under tag 0.
pub(crate) fn first_missing(table: &Rows, lits: &[Lit]) -> Option<Lit>
    requires some_tag { 0 < table.now.tags }
    requires below { are_below table.now.atoms lits.now ≡ true }
    requires ascending { IsAscending lits.now }
    ensures some { IfSome result (IsLeastMissing (known table.now 0) lits.now) }
    ensures none { IfNone result (list_all (known table.now 0) lits.now ≡ true) }
{
    for l in lits {
        if !table.get(0, *l) {
            return Some(*l);
        }
    }
    None
}

// Whether the literal is known under each of the tags.
fn is_known_under(table: &Rows, tags: &[u32], lit: Lit) -> bool
    requires lit { lit.atom.0 < table.now.atoms }
    requires tags { list_all (λ t. nat_lt t table.now.tags) tags.now ≡ true }
    ensures { result ≡ list_all (λ t. known table.now t lit) tags.now }
{
    for t in tags {
        if !table.get(*t, lit) {
            return false;
        }
    }
    true
}

/// Whether a merge is allowed and its target isn't known under tag 0 yet.
pub(crate) fn merges_anew(table: &Rows, merge: &Merge) -> bool
    requires some_tag { 0 < table.now.tags }
    requires target { merge.now.target.atom.0 < table.now.atoms }
    requires tags { list_all (λ t. nat_lt t table.now.tags) merge.now.tags ≡ true }
    ensures { result ≡ (may_merge (Some merge.now) (known table.now) && not (known table.now 0 merge.now.target)) }
{
    if table.get(0, merge.target) {
        return false;
    }
    is_known_under(table, merge.tags.slice(), merge.target)
}
