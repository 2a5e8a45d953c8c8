ghost use Rattle.std.specs.Prelude.{◌≡◌, map, OnOk};
ghost use Rattle.std.specs.List.{flat_map};
ghost use Rattle.kp_tree_grammar.specs.View.{pred_view, item_view};
ghost use Rattle.kp_names_semantics.specs.Faults.{twice_in, words, predicate_faults, item_faults, domain_faults, problem_faults};
ghost use Rattle.kp_names_declared.specs.Collected.{domain_of, problem_of};
ghost use Rattle.kp_names.specs.Noted.{noted};

use crate::declarations::{note_twice, note_twice_heads, note_twice_schemas, note_types};
use crate::faults::{note_cond, note_item};
use crate::first::First;
use crate::schema_faults::note_schemas;
use kp_base::Memory;
use kp_names_declared::{NameSet, Names};
use kp_tree_grammar::{ItemTree, PredTree};
use std::alloc::Global;

// Notes parameters that stand twice in the declaration of a predicate.
fn note_parameters(alloc: Global, predicates: &[PredTree], first: &mut First) -> Result<(), Memory>
    ensures { OnOk result (first.new ≡ noted first.old (flat_map (λ q. twice_in (words q.params)) (map pred_view predicates.now))) }
{
    for predicate in predicates {
        note_twice(alloc, predicate.params.slice(), first)?;
    }
    Ok(())
}

// Notes the faults in the declarations of predicates.
fn note_predicates(alloc: Global, predicates: &[PredTree], first: &mut First) -> Result<(), Memory>
    ensures { OnOk result (first.new ≡ noted first.old (predicate_faults (map pred_view predicates.now))) }
{
    note_twice_heads(alloc, predicates, first)?;
    note_parameters(alloc, predicates, first)?;
    Ok(())
}

/// Notes the faults of the domain.
#[tactic(auto, unfolding(kp_names_declared::specs::Collected::domain_of))]
pub fn note_domain(alloc: Global, names: &Names, first: &mut First) -> Result<(), Memory>
    ensures { OnOk result (first.new ≡ noted first.old (domain_faults (domain_of names.now) (problem_of names.now))) }
{
    let domain = names.domain();
    note_types(names, domain.constants.slice(), first);
    note_predicates(alloc, domain.predicates.slice(), first)?;
    note_twice_schemas(alloc, domain.schemas.slice(), first)?;
    note_schemas(alloc, names, domain.schemas.slice(), first)?;
    Ok(())
}

// Notes the faults of the items of `:init`.
fn note_init(alloc: Global, names: &Names, items: &[ItemTree], first: &mut First)
    ensures { first.new ≡ noted first.old (flat_map (item_faults (domain_of names.now) (problem_of names.now)) (map item_view items.now)) }
{
    let none = NameSet::new(alloc);
    for item in items {
        note_item(names, &none, item, first);
    }
}

/// Notes the faults of the problem.
#[tactic(auto, unfolding(kp_names_declared::specs::Collected::problem_of))]
pub fn note_problem(alloc: Global, names: &Names, first: &mut First)
    ensures { first.new ≡ noted first.old (problem_faults (domain_of names.now) (problem_of names.now)) }
{
    let problem = names.problem();
    note_types(names, problem.objects.slice(), first);
    note_init(alloc, names, problem.init.slice(), first);
    note_cond(names, &NameSet::new(alloc), &problem.goal, first);
}
