//! What runs of `bench` end with, each law the contract of a function that does nothing.

ghost use Rattle.kp_law_runs.specs.Bench.{BenchPosedOnce, BenchesAreAnswered, BenchesAreTrue};

/// With Done the two texts of the family and size have a plan, with as many steps as were told; with Negative the written
/// files have none, and where `complete` was told the two texts have none; with Spent more states than the budget says can be
/// reached.
pub fn benches_are_true()
    ensures { BenchesAreTrue }
{}

/// A run ends with what its two texts come to.
pub fn benches_are_answered()
    ensures { BenchesAreAnswered }
{}

/// It is about one pair of trees and one table.
pub fn bench_posed_once()
    ensures { BenchPosedOnce }
{}
