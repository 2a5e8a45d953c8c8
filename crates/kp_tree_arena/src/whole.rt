ghost use Rattle.std.specs.Prelude.{◌≡◌, map, IfOk};
ghost use Rattle.kp_tree_grammar.specs.View as owned;
ghost use Rattle.kp_tree_arena.specs.Nodes.{pred_view, cond_view, eff_view, schema_view, domain_view, problem_view};

use crate::forms::{copy_cond, copy_eff, copy_items};
use crate::node::{DomainNode, PredNode, ProblemNode, SchemaNode};
use crate::words::{copy_typeds, copy_word};
use kp_base::{Memory, Row};
use kp_tree_grammar::{CondTree, Domain, EffTree, PredTree, Problem, SchemaTree};
use std::alloc::Global;

// An equal declaration.
fn copy_pred(alloc: Global, node: &PredNode) -> Result<PredTree, Memory>
    ensures { IfOk result (λ p. owned.pred_view p ≡ pred_view node.now) }
{
    let head = copy_word(alloc, &node.head)?;
    let params = copy_typeds(alloc, node.params)?;
    Ok(PredTree { head, params })
}

// Equal declarations.
fn copy_preds(alloc: Global, nodes: &[PredNode]) -> Result<Row<PredTree>, Memory>
    ensures { IfOk result (λ ps. map owned.pred_view ps ≡ map pred_view nodes.now) }
{
    let mut copies = Vec::with_capacity(alloc, nodes.len())?;
    'copies: for node in nodes {
        copies.push(copy_pred(alloc, node)?)?;
    }
    Ok(Row::from_vec(copies))
}

// An equal precondition and an equal effect.
fn copy_body(alloc: Global, node: &SchemaNode) -> Result<(CondTree, EffTree), Memory>
    ensures { IfOk result (λ x. (owned.cond_view x.0 ≡ cond_view node.now.pre) × (owned.eff_view x.1 ≡ eff_view node.now.effect)) }
{
    let pre = copy_cond(alloc, &node.pre)?;
    let effect = copy_eff(alloc, &node.effect)?;
    Ok((pre, effect))
}

// An equal schema.
fn copy_schema(alloc: Global, node: &SchemaNode) -> Result<SchemaTree, Memory>
    ensures { IfOk result (λ s. owned.schema_view s ≡ schema_view node.now) }
{
    let name = copy_word(alloc, &node.name)?;
    let params = copy_typeds(alloc, node.params)?;
    let (pre, effect) = copy_body(alloc, node)?;
    Ok(SchemaTree {
        name,
        params,
        pre,
        effect,
    })
}

// Equal schemas.
fn copy_schemas(alloc: Global, nodes: &[SchemaNode]) -> Result<Row<SchemaTree>, Memory>
    ensures { IfOk result (λ ss. map owned.schema_view ss ≡ map schema_view nodes.now) }
{
    let mut copies = Vec::with_capacity(alloc, nodes.len())?;
    'copies: for node in nodes {
        copies.push(copy_schema(alloc, node)?)?;
    }
    Ok(Row::from_vec(copies))
}

/// A domain that owns its parts, equal to that of the arena part by part.
pub fn copy_domain<'a>(alloc: Global, node: &DomainNode<'a>) -> Result<Domain, Memory>
    ensures { IfOk result (λ d. owned.domain_view d ≡ domain_view node.now) }
{
    let kinds = copy_typeds(alloc, node.kinds)?;
    let constants = copy_typeds(alloc, node.constants)?;
    let predicates = copy_preds(alloc, node.predicates)?;
    let schemas = copy_schemas(alloc, node.schemas)?;
    Ok(Domain {
        kinds,
        constants,
        predicates,
        schemas,
    })
}

/// A problem that owns its parts, equal to that of the arena part by part.
pub fn copy_problem<'a>(alloc: Global, node: &ProblemNode<'a>) -> Result<Problem, Memory>
    ensures { IfOk result (λ p. owned.problem_view p ≡ problem_view node.now) }
{
    let objects = copy_typeds(alloc, node.objects)?;
    let init = copy_items(alloc, node.init)?;
    let goal = copy_cond(alloc, &node.goal)?;
    Ok(Problem {
        objects,
        init,
        goal,
    })
}
