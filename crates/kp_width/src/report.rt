use kp_base::{Lit, LitSet, Row};

/// How a target is covered. Its width is the number of clauses.
#[derive(Drop)]
pub struct WidthRow {
    /// The target.
    pub target: Lit,
    /// The first of the least sets of relevant clauses whose tags cover it.
    pub clauses: Row<LitSet>,
    /// Their tags.
    pub tags: Row<LitSet>,
}

/// How wide a problem is.
#[derive(Drop)]
pub enum WidthReport {
    /// Each target is covered by a set of clauses that isn't larger than the bound. The rows are in order of targets.
    Within(Row<WidthRow>),
    /// The first target that isn't.
    Over(Lit),
}
