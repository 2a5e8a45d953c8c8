ghost use Rattle.std.specs.Prelude.{◌≡◌, ◌∷◌, [], not, map, OnOk};
ghost use Rattle.std.specs.List.{flat_map};
ghost use Rattle.kp_base.specs.Lists.{only_if};
ghost use Rattle.kp_tree_grammar.specs.View.{typed_view, pred_view, schema_view};
ghost use Rattle.kp_names_semantics.specs.Faults.{unknown_name, declared_twice, unless_among, type_faults, twice_in, words, variable_faults};
ghost use Rattle.kp_names_semantics.specs.Names.{is_among};
ghost use Rattle.kp_names_semantics.specs.Types.{types};
ghost use Rattle.kp_names_declared.specs.Collected.{domain_of};
ghost use Rattle.kp_names.specs.Noted.{noted, heads_of, names_of};
ghost use Rattle.kp_names_declared.specs.Steps.{with_name};

use crate::first::{Fault, First};
use kp_base::Memory;
use kp_names_declared::{NameSet, Names};
use kp_tree_grammar::{PredTree, SchemaTree, Typed, Word};
use std::alloc::Global;

/// Notes a word whose name is not known.
pub fn note_unless(known: bool, word: &Word, first: &mut First)
    ensures { first.new ≡ noted first.old (only_if (not known) (unknown_name word.now.byte ∷ [])) }
{
    if !known {
        first.note(Fault::UnknownName(word.byte));
    }
}

// Notes the words that are no types.
fn note_kinds(names: &Names, kinds: &[Word], first: &mut First)
    ensures { first.new ≡ noted first.old (flat_map (unless_among (types (domain_of names.now))) kinds.now) }
{
    for kind in kinds {
        note_unless(names.is_type(&kind.text), kind, first);
    }
}

/// Notes the types in a typed list that are no types.
pub fn note_types(names: &Names, lines: &[Typed], first: &mut First)
    ensures { first.new ≡ noted first.old (type_faults (domain_of names.now) (map typed_view lines.now)) }
{
    for line in lines {
        note_kinds(names, line.kinds.slice(), first);
    }
}

// Notes a word whose name was seen, and adds the name to those that were.
fn note_repeat<'a>(seen: &mut NameSet<'a>, word: &'a Word, first: &mut First) -> Result<(), Memory>
    ensures seen { OnOk result (seen.new ≡ with_name seen.old word.now.text) }
    ensures noted { OnOk result (first.new ≡ noted first.old (only_if (is_among seen.old word.now.text) (declared_twice word.now.byte ∷ []))) }
{
    if !seen.insert(word.text.slice())? {
        first.note(Fault::DeclaredTwice(word.byte));
    }
    Ok(())
}

/// Notes what a typed list declares again.
pub fn note_twice(alloc: Global, lines: &[Typed], first: &mut First) -> Result<(), Memory>
    ensures { OnOk result (first.new ≡ noted first.old (twice_in (words (map typed_view lines.now)))) }
{
    let mut seen = NameSet::new(alloc);
    for line in lines {
        note_repeat(&mut seen, &line.word, first)?;
    }
    Ok(())
}

/// Notes predicates that are declared again.
pub fn note_twice_heads(
    alloc: Global,
    predicates: &[PredTree],
    first: &mut First,
) -> Result<(), Memory>
    ensures { OnOk result (first.new ≡ noted first.old (twice_in (heads_of (map pred_view predicates.now)))) }
{
    let mut seen = NameSet::new(alloc);
    for predicate in predicates {
        note_repeat(&mut seen, &predicate.head, first)?;
    }
    Ok(())
}

/// Notes schemas whose names are declared again.
pub fn note_twice_schemas(
    alloc: Global,
    schemas: &[SchemaTree],
    first: &mut First,
) -> Result<(), Memory>
    ensures { OnOk result (first.new ≡ noted first.old (twice_in (names_of (map schema_view schemas.now)))) }
{
    let mut seen = NameSet::new(alloc);
    for schema in schemas {
        note_repeat(&mut seen, &schema.name, first)?;
    }
    Ok(())
}

/// Notes the faults of a list of variables.
pub fn note_variables(
    alloc: Global,
    names: &Names,
    variables: &[Typed],
    first: &mut First,
) -> Result<(), Memory>
    ensures { OnOk result (first.new ≡ noted first.old (variable_faults (domain_of names.now) (map typed_view variables.now))) }
{
    note_types(names, variables, first);
    note_twice(alloc, variables, first)
}
