//! Laws of the tables of sources and of the actions of plans, each proved as the contract of a function that does nothing.

ghost use Rattle.kp_run_inputs.specs.Laws.{EmptyTagsFit, PlansAreDecided, PlansHaveOneList, SomeTablesAreComplete, SourcesAreDecided, SourcesGoByModels, SourcesHaveOneTable, TablesAreRight};

/// The table of a source is right, and its merges are valid.
#[tactic(auto, using(crate::proofs::Right::tables_right))]
pub fn tables_are_right()
    ensures { TablesAreRight }
{}

/// The table of `models`, and that of `auto`, is complete.
pub fn some_tables_are_complete()
    ensures { SomeTablesAreComplete }
{}

/// A source has one table, or one refusal, and never both.
#[tactic(auto, using(crate::proofs::OneTable::one_table))]
pub fn sources_have_one_table()
    ensures { SourcesHaveOneTable }
{}

/// A source has a table or a refusal.
pub fn sources_are_decided()
    ensures { SourcesAreDecided }
{}

/// Which table a source has, or which refusal, goes by the models alone.
#[tactic(auto, using(crate::proofs::ByModels::alike))]
pub fn sources_go_by_models()
    ensures { SourcesGoByModels }
{}

/// No limit on facts or weight is passed with the empty tag alone.
#[tactic(auto, using(crate::proofs::EmptyTags::empty_tags_fit))]
pub fn empty_tags_fit()
    ensures { EmptyTagsFit }
{}

/// A plan file names one list of actions, or has one refusal, and never both.
#[tactic(auto, using(crate::proofs::OnePlan::one_plan))]
pub fn plans_have_one_list()
    ensures { PlansHaveOneList }
{}

/// A plan file names actions, or has a refusal.
pub fn plans_are_decided()
    ensures { PlansAreDecided }
{}
