//! Laws of the tagged machine, each proved as the contract of a function that does nothing.

ghost use Rattle.kp_law_tagged_machine.specs.Formulas.{SameModelsSayTheSame};
ghost use Rattle.kp_law_tagged_machine.specs.Laws.{ClashFreeNeverClashes, ExclusivePairsAreInductive, InductiveNeverClashes, InductivePairsStayApart, AcceptedListsArePlans, OneTagHasNoMerges, OneTagIsTable, OperatorsAreExact};

/// Each list that the machine accepts is, without its merges, a plan from every model.
#[tactic(auto, using(crate::proofs::Sound::sound))]
pub fn accepted_lists_are_plans()
    ensures { AcceptedListsArePlans }
{}

/// In no state on a run from a model are both atoms of a pair of an inductive set true.
#[tactic(auto, using(crate::proofs::Inductive::stay_apart))]
pub fn inductive_pairs_stay_apart()
    ensures { InductivePairsStayApart }
{}

/// Where no add and delete of one atom are compatible under an inductive set of pairs, no add is ever done together with its delete.
#[tactic(auto, using(crate::proofs::Inductive::never_clashes))]
pub fn no_clash_under_inductive_pairs()
    ensures { InductiveNeverClashes }
{}

/// The exclusive pairs are an inductive set.
#[tactic(auto, using(crate::proofs::Union::union_inductive))]
pub fn exclusive_pairs_are_inductive()
    ensures { ExclusivePairsAreInductive }
{}

/// Where no add and delete of one atom are compatible under the exclusive pairs, no add is ever done together with its delete.
#[tactic(auto, using(crate::proofs::Exclusive::never_clashes))]
pub fn no_clash_under_exclusive_pairs()
    ensures { ClashFreeNeverClashes }
{}

/// The two effects that an operator has for each effect of its action do what the machine does.
#[tactic(auto, using(crate::proofs::Operators::operators_are_exact))]
pub fn operators_are_exact()
    ensures { OperatorsAreExact }
{}

/// The empty tag with its closure is a table by itself.
#[tactic(auto, using(crate::proofs::OneTag::is_table))]
pub fn one_tag_is_a_table()
    ensures { OneTagIsTable }
{}

/// With the empty tag alone, accepted lists have no merges.
#[tactic(auto, using(crate::proofs::OneTag::has_no_merges))]
pub fn one_tag_has_no_merges()
    ensures { OneTagHasNoMerges }
{}

/// Formulas with the same models have the same closures, consistent tags, valid merges, right tables, exclusive pairs and first clash.
#[tactic(auto, using(crate::proofs::Formulas::same_models))]
pub fn same_models_say_the_same()
    ensures { SameModelsSayTheSame }
{}
