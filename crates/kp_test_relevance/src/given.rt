//! What the tests ask: the relevance of a ground problem.

use kp_base::{Ground, Memory};
use kp_relevance::Relevance;
use kp_test_problems::is_of_its_atoms;
use std::alloc::Global;

/// The relevance of the literals of a ground problem.
pub(crate) fn relevance_of(
    alloc: Global,
    ground: Result<Ground, Memory>,
) -> Result<Relevance, Memory> {
    let ground = ground?;
    if !is_of_its_atoms(&ground) {
        return Err(Memory);
    }
    let relevance = Relevance::of(alloc, &ground);
    drop(ground);
    relevance
}
