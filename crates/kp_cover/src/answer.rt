use kp_base::{Lit, Row};

/// Which targets the merges of a table cover.
#[derive(Debug, Drop)]
pub struct Coverage {
    /// Whether each target is covered.
    pub complete: bool,
    /// The targets that aren't, ascending.
    pub uncovered: Row<Lit>,
}
