//! Laws of literal sets, closures, relevance and the facts of a task, each proved as the contract of a function that does nothing.

ghost use Rattle.kp_base.specs.Closure.{IsClosureExact};
ghost use Rattle.kp_base.specs.Facts.{FactsAreClosed, FactsAreTold, RelevanceIsLinked};
ghost use Rattle.kp_base.specs.LitSet.{SetsHaveTheirElements};

/// The set of some literals has these and no others, in ascending order.
pub fn sets_have_their_elements()
    ensures { SetsHaveTheirElements }
{}

/// Where the formula and the tag speak of the first n atoms alone, the closure over their states is the tag's.
pub fn closures_are_exact()
    ensures { IsClosureExact }
{}

/// A literal is relevant to another just where joins link the two over literals of the ground problem.
#[tactic(auto, using(crate::proofs::Linking::relevance_is_linked))]
pub fn relevance_is_linked()
    ensures { RelevanceIsLinked }
{}

/// The list has just the facts that matter, each once, in order.
#[tactic(auto, using(crate::proofs::FactsListed::facts_are_told))]
pub fn facts_are_told()
    ensures { FactsAreTold }
{}

/// What bears on a fact that matters matters under the same tag.
#[tactic(auto, using(crate::proofs::FactsClosed::facts_are_closed))]
pub fn facts_are_closed()
    ensures { FactsAreClosed }
{}
