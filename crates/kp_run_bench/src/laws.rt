//! A law of runs on generated problems, proved as the contract of a function that does nothing.

ghost use Rattle.kp_run_bench.specs.Laws.{BenchesHaveOneOutcome};

/// A run comes to one outcome.
pub fn benches_have_one_outcome()
    ensures { BenchesHaveOneOutcome }
{}
