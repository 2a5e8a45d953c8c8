ghost use Rattle.std.specs.Prelude.{◌≡◌, ◌<◌, length, fold, [], OnOk, IfOk};
ghost use Rattle.kp_check.specs.Marks.{with_open, open_marks, later_values};
ghost use Rattle.kp_check.specs.Values.{truth_at};

use crate::failing::{At, pre};
use crate::steps::Walk;
use crate::values::truth_at;
use kp_base::{Ground, Lit, Memory};
use kp_primes_first_model::Truth;
use std::alloc::Global;

// Notes a literal at a step, unless it is true there.
fn add_open(marks: &mut Vec<At>, values: &[Truth], step: u32, literal: Lit) -> Result<(), Memory>
    ensures { OnOk result (marks.new.items ≡ with_open values.now step marks.old.items literal) }
{
    match truth_at(values, literal) {
        Truth::Yes => Ok(()),
        Truth::No => {
            marks.push(At { step, literal })?;
            Ok(())
        }
        Truth::Open(_) => {
            marks.push(At { step, literal })?;
            Ok(())
        }
    }
}

fn add_all_open(
    marks: &mut Vec<At>,
    values: &[Truth],
    step: u32,
    lits: &[Lit],
) -> Result<(), Memory>
    ensures { OnOk result (marks.new.items ≡ fold (with_open values.now step) marks.old.items lits.now) }
{
    for lit in lits {
        add_open(marks, values, step, *lit)?;
    }
    Ok(())
}

/// The literals of preconditions and of the goal that aren't known to be true in their turn, where each step is taken
/// whether it is applicable or not, from these values on.
pub fn open_marks(
    alloc: Global,
    ground: &Ground,
    steps: &[u32],
    from: Vec<Truth>,
) -> Result<Vec<At>, Memory>
    requires { length steps.now < 2147483648 }
    ensures { IfOk result (λ marks. marks.items ≡ open_marks ground.now from.items steps.now 0 []) }
{
    let mut walk = Walk::from(alloc, from);
    let mut marks = Vec::new(alloc);
    let mut count = 0u32;
    for number in steps {
        add_all_open(&mut marks, &walk.values, count, pre(ground, *number))?;
        walk.step(ground, *number)?;
        count += 1;
    }
    add_all_open(&mut marks, &walk.values, count, ground.goal.slice())?;
    Ok(marks)
}

// The walk over the first steps.
fn walk_to(
    alloc: Global,
    ground: &Ground,
    steps: &[u32],
    count: u32,
    from: Vec<Truth>,
) -> Result<Walk, Memory>
    ensures { IfOk result (λ walk. walk.values.items ≡ later_values ground.now from.items steps.now count) }
{
    let mut walk = Walk::from(alloc, from);
    let mut left = count;
    for number in steps {
        if left == 0 {
            return Ok(walk);
        }
        walk.step(ground, *number)?;
        left -= 1;
    }
    Ok(walk)
}

/// Whether the literal is true in its turn.
pub fn truth_later(
    alloc: Global,
    ground: &Ground,
    steps: &[u32],
    mark: At,
    from: Vec<Truth>,
) -> Result<Truth, Memory>
    ensures { IfOk result (λ t. t ≡ truth_at (later_values ground.now from.items steps.now mark.step) mark.literal) }
{
    let walk = walk_to(alloc, ground, steps, mark.step, from)?;
    Ok(truth_at(&walk.values, mark.literal))
}
