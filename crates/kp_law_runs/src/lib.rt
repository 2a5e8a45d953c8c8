//! Laws of outcomes and runs: words have just one outcome on what is held (`specs/Laws.antt`), what
//! follows from how a run ends (`specs/Follows.antt`), and with what a run of each command ends
//! (`specs/Commands.antt`, `specs/Solve.antt`, `specs/Width.antt`, `specs/Bench.antt`).
#![tactic(auto)]

mod bench;
mod commands;
mod follows;
mod laws;
mod solve;
mod width;

pub use bench::{bench_posed_once, benches_are_answered, benches_are_true};
pub use commands::{
    checks_are_answered, checks_are_true, clashes_are_answered, complete_is_true,
    lifted_lines_strip, lifts_are_answered, lifts_are_true, merges_are_listed,
    solvable_stays_solvable, some_modes_tell_complete, strips_are_answered,
    translations_are_answered,
};
pub use follows::{
    answers_are_whole, done_puts_the_outputs, failed_gets_are_told, failed_writes_are_told,
    inputs_are_read_in_order, missing_inputs_are_faults, no_command_puts_nothing, only_done_puts,
    others_put_nothing, puts_are_of_the_due, read_faults_are_true, read_faults_tell_nothing,
    texts_are_of_the_due, the_due_is_carried_out, the_due_is_the_answer, write_faults_are_true,
};
pub use laws::{
    commands_have_an_outcome, unknown_steps_are_no_plan, words_have_one_outcome,
    words_have_some_outcome, yes_is_a_plan,
};
pub use solve::{
    classical_is_a_plan, classical_posed_once, classical_spent_is_true, classicals_are_answered,
    no_classical_plan_is_true, no_plan_in_some_modes, no_plan_is_true, posed_once,
    solved_is_a_plan, solvings_are_answered, spent_is_true,
};
pub use width::{widths_are_answered, widths_are_true};
