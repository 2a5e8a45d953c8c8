use kp_base::{Lit, LitSet, Row};

/// A merge with its tags themselves in place of their numbers: one of a file, or of a mode.
#[derive(Drop)]
pub struct FileMerge {
    /// The literal that is merged.
    pub target: Lit,
    /// The tags, in order.
    pub tags: Row<LitSet>,
}
