ghost use Rattle.std.specs.Prelude.{◌≡◌, map, IfOk, OnOk};
ghost use Rattle.kp_tree_grammar.specs.View.{typed_view, atom_view, domain_view, problem_view, eff_view as tree_view, schema_view as schema_tree_view, cond_view as cond_tree_view};
ghost use Rattle.kp_tree_grammar.specs.Trees.{Eff as tree_effects};
ghost use Rattle.kp_names_semantics.specs.Problems.{inside, declared, numbered_eff, numbered_schema, numbered_cond, numbered_range, Eff as by_number};
ghost use Rattle.kp_names_numbered.specs.View.{cond_view, eff_view, schema_view};

use crate::lifted::{Cond, Eff, Schema};
use crate::ranges::Ranges;
use crate::terms::{condition, terms};
use kp_base::{Memory, Row};
use kp_names_declared::{Names, Scope};
use kp_tree_grammar::{AtomTree, CondTree, EffTree, SchemaTree, Typed};
use std::alloc::Global;

// An effect under a condition.
fn under(
    alloc: Global,
    names: &Names,
    scope: &Scope,
    cond: &CondTree,
    body: Eff,
) -> Result<Eff, Memory>
    ensures { IfOk result (λ e. eff_view e ≡ by_number.when (numbered_cond (domain_view names.now.domain) (problem_view names.now.problem) scope.now (cond_tree_view cond.now)) (eff_view body)) }
{
    let body = Box::new(alloc, body)?;
    Ok(Eff::When(condition(alloc, names, scope, cond)?, body))
}

// An effect for all objects that these variables stand for.
fn over<'a>(
    alloc: Global,
    ranges: &mut Ranges<'a>,
    variables: &'a [Typed],
    body: Eff,
) -> Result<Eff, Memory>
    ensures kept { ranges.new.names ≡ ranges.old.names }
    ensures effect { IfOk result (λ e. eff_view e ≡ by_number.each (map (numbered_range (domain_view ranges.old.names.domain) (problem_view ranges.old.names.problem)) (map typed_view variables.now)) (eff_view body)) }
{
    let body = Box::new(alloc, body)?;
    Ok(Eff::Each(ranges.of_variables(alloc, variables)?, body))
}

// An atom that is added, or deleted.
fn made(
    alloc: Global,
    names: &Names,
    scope: &Scope,
    positive: bool,
    atom: &AtomTree,
) -> Result<Eff, Memory>
    ensures { IfOk result (λ e. eff_view e ≡ numbered_eff (domain_view names.now.domain) (problem_view names.now.problem) scope.now (tree_effects.makes positive (atom_view atom.now))) }
{
    Ok(Eff::Atom {
        positive,
        pred: names.predicate_number(&atom.head.text),
        terms: terms(alloc, names, scope, atom.terms.slice())?,
    })
}

// An effect under these variables.
#[cycle(effs)]
fn effect<'a>(
    alloc: Global,
    ranges: &mut Ranges<'a>,
    scope: &mut Scope<'a>,
    tree: &'a EffTree,
) -> Result<Eff, Memory>
    ensures kept { ranges.new.names ≡ ranges.old.names }
    ensures scope { OnOk result (scope.new ≡ scope.old) }
    ensures effect { IfOk result (λ e. eff_view e ≡ numbered_eff (domain_view ranges.old.names.domain) (problem_view ranges.old.names.problem) scope.old (tree_view tree.now)) }
{
    match tree {
        EffTree::All(parts) => Ok(Eff::All(effects(alloc, ranges, scope, parts.slice())?)),
        EffTree::When(cond, body) => {
            let body = effect(alloc, ranges, scope, body)?;
            under(alloc, &ranges.names, scope, cond, body)
        }
        EffTree::Each(variables, body) => {
            let body = effect_inside(alloc, ranges, scope, variables.slice(), body)?;
            over(alloc, ranges, variables.slice(), body)
        }
        EffTree::Atom(positive, atom) => made(alloc, &ranges.names, scope, *positive, atom),
    }
}

// An effect under these variables, with some more inside.
#[cycle(effs)]
fn effect_inside<'a>(
    alloc: Global,
    ranges: &mut Ranges<'a>,
    scope: &mut Scope<'a>,
    variables: &'a [Typed],
    tree: &'a EffTree,
) -> Result<Eff, Memory>
    ensures kept { ranges.new.names ≡ ranges.old.names }
    ensures scope { OnOk result (scope.new ≡ scope.old) }
    ensures effect { IfOk result (λ e. eff_view e ≡ numbered_eff (domain_view ranges.old.names.domain) (problem_view ranges.old.names.problem) (inside (declared (map typed_view variables.now)) scope.old) (tree_view tree.now)) }
{
    scope.enter(variables)?;
    let effect = effect(alloc, ranges, scope, tree)?;
    scope.leave(variables.len())?;
    Ok(effect)
}

// Effects under these variables.
#[cycle(effs)]
fn effects<'a>(
    alloc: Global,
    ranges: &mut Ranges<'a>,
    scope: &mut Scope<'a>,
    trees: &'a [EffTree],
) -> Result<Row<Eff>, Memory>
    ensures kept { ranges.new.names ≡ ranges.old.names }
    ensures scope { OnOk result (scope.new ≡ scope.old) }
    ensures effects { IfOk result (λ row. map eff_view row ≡ map (numbered_eff (domain_view ranges.old.names.domain) (problem_view ranges.old.names.problem) scope.old) (map tree_view trees.now)) }
{
    let mut row = Row::new(alloc);
    'trees: for tree in trees {
        row.push(effect(alloc, ranges, scope, tree)?)?;
    }
    Ok(row)
}

// The precondition and the effect of a schema, under these variables.
fn forms_under<'a>(
    alloc: Global,
    ranges: &mut Ranges<'a>,
    scope: &mut Scope<'a>,
    tree: &'a SchemaTree,
) -> Result<(Cond, Eff), Memory>
    ensures kept { ranges.new.names ≡ ranges.old.names }
    ensures pre { IfOk result (λ x. cond_view x.0 ≡ numbered_cond (domain_view ranges.old.names.domain) (problem_view ranges.old.names.problem) scope.old (cond_tree_view tree.now.pre)) }
    ensures effect { IfOk result (λ x. eff_view x.1 ≡ numbered_eff (domain_view ranges.old.names.domain) (problem_view ranges.old.names.problem) scope.old (tree_view tree.now.effect)) }
{
    let pre = condition(alloc, &ranges.names, scope, &tree.pre)?;
    let effect = effect(alloc, ranges, scope, &tree.effect)?;
    Ok((pre, effect))
}

// The same, under its parameters.
fn forms<'a>(
    alloc: Global,
    ranges: &mut Ranges<'a>,
    tree: &'a SchemaTree,
) -> Result<(Cond, Eff), Memory>
    ensures kept { ranges.new.names ≡ ranges.old.names }
    ensures pre { IfOk result (λ x. cond_view x.0 ≡ (numbered_schema (domain_view ranges.old.names.domain) (problem_view ranges.old.names.problem) (schema_tree_view tree.now)).pre) }
    ensures effect { IfOk result (λ x. eff_view x.1 ≡ (numbered_schema (domain_view ranges.old.names.domain) (problem_view ranges.old.names.problem) (schema_tree_view tree.now)).effect) }
{
    let mut scope = Scope::new(alloc);
    scope.enter(tree.params.slice())?;
    let forms = forms_under(alloc, ranges, &mut scope, tree);
    drop(scope);
    forms
}

// A schema by number.
fn schema<'a>(
    alloc: Global,
    ranges: &mut Ranges<'a>,
    tree: &'a SchemaTree,
) -> Result<Schema, Memory>
    ensures kept { ranges.new.names ≡ ranges.old.names }
    ensures schema { IfOk result (λ s. schema_view s ≡ numbered_schema (domain_view ranges.old.names.domain) (problem_view ranges.old.names.problem) (schema_tree_view tree.now)) }
{
    let name = tree.name.text.copy(alloc)?;
    let params = ranges.of_variables(alloc, tree.params.slice())?;
    let (pre, effect) = forms(alloc, ranges, tree)?;
    Ok(Schema {
        name,
        params,
        pre,
        effect,
    })
}

/// Action schemas by number.
pub fn schemas<'a>(
    alloc: Global,
    ranges: &mut Ranges<'a>,
    trees: &'a [SchemaTree],
) -> Result<Row<Schema>, Memory>
    ensures kept { ranges.new.names ≡ ranges.old.names }
    ensures schemas { IfOk result (λ row. map schema_view row ≡ map (numbered_schema (domain_view ranges.old.names.domain) (problem_view ranges.old.names.problem)) (map schema_tree_view trees.now)) }
{
    let mut row = Row::new(alloc);
    for tree in trees {
        row.push(schema(alloc, ranges, tree)?)?;
    }
    Ok(row)
}
