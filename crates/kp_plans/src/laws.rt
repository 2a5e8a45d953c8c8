//! Laws of plan files, each proved as the contract of a function that does nothing.

ghost use Rattle.kp_plans.specs.PlanFiles.{PlansReadOnce, PlansRefuseOnce, PlansNeverBoth, PlansAlwaysOne};

/// A plan file has one list of steps at most, or one refusal; never both, and one of them always.
pub fn a_plan_file_has_one_answer()
    ensures one_list { PlansReadOnce }
    ensures one_refusal { PlansRefuseOnce }
    ensures never_both { PlansNeverBoth }
    ensures always_one { PlansAlwaysOne }
{}
