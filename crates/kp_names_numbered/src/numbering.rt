ghost use Rattle.std.specs.Prelude.{◌≡◌, ◌≤◌, length, map, IfOk};
ghost use Rattle.std.specs.List.{flat_map};
ghost use Rattle.kp_base.specs.Files.{most_bytes};
ghost use Rattle.kp_tree_grammar.specs.View.{pred_view, domain_view, problem_view};
ghost use Rattle.kp_names_semantics.specs.Types.{objects};
ghost use Rattle.kp_names_semantics.specs.Numbering.{numbered_pred, numbered_item, numbered_goal, numbered_problem};
ghost use Rattle.kp_names_declared.specs.Unsure.{unsure_place};
ghost use Rattle.kp_names_numbered.specs.View.{lifted_view};

use crate::effects::schemas;
use crate::lifted::Lifted;
use crate::ranges::Ranges;
use kp_base::{Memory, Row, Text, Texts};
use kp_names_declared::{Names, goal_literals, initial_items, unsure_place};
use kp_names_semantics::{GroundLit, Item, Pred};
use kp_tree_grammar::PredTree;
use std::alloc::Global;

fn predicate(alloc: Global, tree: &PredTree) -> Result<Pred, Memory>
    ensures { IfOk result (λ p. p ≡ numbered_pred (pred_view tree.now)) }
{
    let Ok(arity) = u32::try_from(tree.params.len()) else {
        return Err(Memory);
    };
    Ok(Pred {
        name: tree.head.text.copy(alloc)?,
        arity,
    })
}

fn predicates(alloc: Global, trees: &[PredTree]) -> Result<Row<Pred>, Memory>
    ensures { IfOk result (λ row. row ≡ map numbered_pred (map pred_view trees.now)) }
{
    let mut row = Row::new(alloc);
    for tree in trees {
        row.push(predicate(alloc, tree)?)?;
    }
    Ok(row)
}

// The objects and the predicates.
fn declared(alloc: Global, names: &Names) -> Result<(Row<Text>, Row<Pred>), Memory>
    ensures objects { IfOk result (λ x. x.0 ≡ objects (domain_view names.now.domain) (problem_view names.now.problem)) }
    ensures predicates { IfOk result (λ x. x.1 ≡ map numbered_pred (domain_view names.now.domain).predicates) }
{
    let objects = names.object_texts(alloc)?;
    let predicates = predicates(alloc, names.domain().predicates.slice())?;
    Ok((objects, predicates))
}

// What `:init` states, and the goal.
fn stated(alloc: Global, names: &Names) -> Result<(Row<Item>, Row<GroundLit>), Memory>
    ensures init { IfOk result (λ x. x.0 ≡ flat_map (numbered_item (domain_view names.now.domain) (problem_view names.now.problem)) (problem_view names.now.problem).init) }
    ensures goal { IfOk result (λ x. x.1 ≡ numbered_goal (domain_view names.now.domain) (problem_view names.now.problem) (problem_view names.now.problem).goal) }
{
    let init = initial_items(alloc, names)?;
    let goal = goal_literals(alloc, names)?;
    Ok((init, goal))
}

// The problem by number, of its names.
fn lifted(alloc: Global, bytes: &Texts, ranges: &mut Ranges) -> Result<Lifted, Memory>
    requires { length bytes.now.problem ≤ most_bytes }
    ensures numbered { IfOk result (λ l. lifted_view l ≡ numbered_problem (domain_view ranges.old.names.domain) (problem_view ranges.old.names.problem)) }
    ensures unsure { IfOk result (λ l. l.unsure ≡ unsure_place bytes.now.problem (problem_view ranges.old.names.problem)) }
{
    let domain = ranges.names.domain();
    let schemas = schemas(alloc, ranges, domain.schemas.slice())?;
    let names = &ranges.names;
    let declared = declared(alloc, names)?;
    let stated = stated(alloc, names)?;
    Ok(Lifted {
        objects: declared.0,
        predicates: declared.1,
        schemas,
        init: stated.0,
        goal: stated.1,
        unsure: unsure_place(bytes.problem.slice(), names.problem()),
    })
}

/// The problem by number of the trees whose names these are. It asks nothing of them, but is of use
/// where they have no fault: each name that is declared nowhere gets the number after the last.
pub fn by_number(alloc: Global, bytes: &Texts, names: Names) -> Result<Lifted, Memory>
    requires { length bytes.now.problem ≤ most_bytes }
    ensures numbered { IfOk result (λ l. lifted_view l ≡ numbered_problem (domain_view names.entry.domain) (problem_view names.entry.problem)) }
    ensures unsure { IfOk result (λ l. l.unsure ≡ unsure_place bytes.now.problem (problem_view names.entry.problem)) }
{
    let mut ranges = Ranges::new(alloc, names)?;
    let lifted = lifted(alloc, bytes, &mut ranges);
    drop(ranges);
    lifted
}
