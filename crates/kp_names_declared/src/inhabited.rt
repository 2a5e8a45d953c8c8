ghost use Rattle.std.specs.Prelude.{◌≡◌, [], fold, map, IfOk, OnOk};
ghost use Rattle.std.specs.List.{flat_map};
ghost use Rattle.kp_tree_grammar.specs.View.{typed_view, domain_view, problem_view};
ghost use Rattle.kp_names_semantics.specs.Types.{names};
ghost use Rattle.kp_names_declared.specs.Steps.{with_name, own_types, HoldTypes};

use crate::below::{OBJECT, close};
use crate::name_set::NameSet;
use crate::tables::add_words;
use crate::under::Under;
use kp_base::Memory;
use kp_tree_grammar::{Domain, Problem, Typed};
use std::alloc::Global;

// Adds the types that stand behind the names of a typed list.
fn add_kinds<'a>(found: &mut NameSet<'a>, lines: &'a [Typed]) -> Result<(), Memory>
    ensures { OnOk result (found.new ≡ fold with_name found.old (flat_map (λ x. names x.kinds) (map typed_view lines.now))) }
{
    for line in lines {
        add_words(found, line.kinds.slice())?;
    }
    Ok(())
}

/// `object`, and the types that stand behind objects.
pub fn types_of_objects<'a>(
    alloc: Global,
    domain: &'a Domain,
    problem: &'a Problem,
) -> Result<NameSet<'a>, Memory>
    ensures { IfOk result (λ found. found ≡ fold with_name [] (own_types (domain_view domain.now) (problem_view problem.now))) }
{
    let mut found = NameSet::new(alloc);
    found.insert(OBJECT)?;
    add_kinds(&mut found, domain.constants.slice())?;
    add_kinds(&mut found, problem.objects.slice())?;
    Ok(found)
}

/// Types, among them all that have objects: `object`, the types of objects, and all above these.
pub fn inhabited_types<'a>(
    alloc: Global,
    domain: &'a Domain,
    problem: &'a Problem,
) -> Result<NameSet<'a>, Memory>
    ensures { IfOk result (λ found. HoldTypes (domain_view domain.now) (problem_view problem.now) found) }
{
    let over = Under::over(alloc, domain.kinds.slice())?;
    let mut found = types_of_objects(alloc, domain, problem)?;
    close(&over, &mut found)?;
    Ok(found)
}
