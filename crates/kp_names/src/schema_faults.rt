ghost use Rattle.std.specs.Prelude.{◌≡◌, [], fold, map, OnOk};
ghost use Rattle.std.specs.List.{flat_map};
ghost use Rattle.kp_tree_grammar.specs.View.{eff_view, schema_view, typed_view};
ghost use Rattle.kp_names_semantics.specs.Faults.{eff_faults, schema_faults, variable_faults};
ghost use Rattle.kp_names_semantics.specs.Types.{declared};
ghost use Rattle.kp_names_declared.specs.Collected.{domain_of, problem_of};
ghost use Rattle.kp_names.specs.Noted.{noted};
ghost use Rattle.kp_names_declared.specs.Steps.{with_name};

use crate::declarations::note_variables;
use crate::faults::{note_atom, note_cond};
use crate::first::First;
use kp_base::Memory;
use kp_names_declared::{NameSet, Names, add_declared};
use kp_tree_grammar::{EffTree, SchemaTree, Typed};
use std::alloc::Global;

// Notes the faults of variables, and adds these to the scope.
fn note_scope<'a>(
    alloc: Global,
    names: &Names,
    scope: &mut NameSet<'a>,
    variables: &'a [Typed],
    first: &mut First,
) -> Result<(), Memory>
    ensures noted { OnOk result (first.new ≡ noted first.old (variable_faults (domain_of names.now) (map typed_view variables.now))) }
    ensures scope { OnOk result (scope.new ≡ fold with_name scope.old (declared (map typed_view variables.now))) }
{
    note_variables(alloc, names, variables, first)?;
    add_declared(scope, variables)
}

// Notes the faults of an effect. The scope is left as it was found.
#[tactic(auto, using(crate::proofs::Scopes::take_first))]
fn note_effect<'a>(
    alloc: Global,
    names: &Names,
    scope: &mut NameSet<'a>,
    effect: &'a EffTree,
    first: &mut First,
) -> Result<(), Memory>
    ensures noted { OnOk result (first.new ≡ noted first.old (eff_faults (domain_of names.now) (problem_of names.now) scope.old (eff_view effect.now))) }
    ensures scope { OnOk result (scope.new ≡ scope.old) }
{
    match effect {
        EffTree::All(parts) => {
            for part in parts.slice() {
                note_effect(alloc, names, scope, part, first)?;
            }
            Ok(())
        }
        EffTree::When(cond, body) => {
            note_cond(names, scope, cond, first);
            note_effect(alloc, names, scope, body, first)
        }
        EffTree::Each(variables, body) => {
            let outside = scope.len();
            note_scope(alloc, names, scope, variables.slice(), first)?;
            note_effect(alloc, names, scope, body, first)?;
            scope.truncate(outside);
            Ok(())
        }
        EffTree::Atom(_, atom) => {
            note_atom(names, scope, atom, first);
            Ok(())
        }
    }
}

// Notes the faults of a schema, whose parameters come into a scope of no names.
fn note_within<'a>(
    alloc: Global,
    names: &Names,
    scope: &mut NameSet<'a>,
    schema: &'a SchemaTree,
    first: &mut First,
) -> Result<(), Memory>
    requires { scope.old ≡ [] }
    ensures { OnOk result (first.new ≡ noted first.old (schema_faults (domain_of names.now) (problem_of names.now) (schema_view schema.now))) }
{
    note_scope(alloc, names, scope, schema.params.slice(), first)?;
    note_cond(names, scope, &schema.pre, first);
    note_effect(alloc, names, scope, &schema.effect, first)?;
    Ok(())
}

// Notes the faults of a schema.
fn note_schema(
    alloc: Global,
    names: &Names,
    schema: &SchemaTree,
    first: &mut First,
) -> Result<(), Memory>
    ensures { OnOk result (first.new ≡ noted first.old (schema_faults (domain_of names.now) (problem_of names.now) (schema_view schema.now))) }
{
    let mut scope = NameSet::new(alloc);
    let noted = note_within(alloc, names, &mut scope, schema, first);
    drop(scope);
    noted
}

/// Notes the faults of schemas.
pub fn note_schemas(
    alloc: Global,
    names: &Names,
    schemas: &[SchemaTree],
    first: &mut First,
) -> Result<(), Memory>
    ensures { OnOk result (first.new ≡ noted first.old (flat_map (schema_faults (domain_of names.now) (problem_of names.now)) (map schema_view schemas.now))) }
{
    for schema in schemas {
        note_schema(alloc, names, schema, first)?;
    }
    Ok(())
}
