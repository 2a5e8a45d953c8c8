//! Laws of tables of merges, each proved as the contract of a function that does nothing.

ghost use Rattle.kp_tags.specs.Laws.{AcceptedTablesAreRight, CoverageGoesByModels, IsMadeOnce, IsTableOnce, MadeTablesAreComplete, MadeTablesAreRight, TablesGoByModels, TablesMadeGoByModels};

/// Merges have one table.
pub fn there_is_one_table()
    ensures { IsTableOnce }
{}

/// A table of accepted merges is right, and its merges are valid.
pub fn accepted_tables_are_right()
    ensures { AcceptedTablesAreRight }
{}

/// Formulas with the same models have the same tables of merges, or the same faults.
pub fn tables_go_by_models()
    ensures { TablesGoByModels }
{}

/// The table of a mode is right, and its merges are valid.
pub fn made_tables_are_right()
    ensures { MadeTablesAreRight }
{}

/// The table of `Models`, and that of `Auto`, is complete.
pub fn made_tables_are_complete()
    ensures { MadeTablesAreComplete }
{}

/// A mode has one table, or one refusal.
pub fn there_is_one_made_table()
    ensures { IsMadeOnce }
{}

/// Formulas with the same models have the same table in a mode, or the same refusal.
pub fn made_tables_go_by_models()
    ensures { TablesMadeGoByModels }
{}

/// Formulas with the same models leave the same targets of a table uncovered.
pub fn coverage_goes_by_models()
    ensures { CoverageGoesByModels }
{}
