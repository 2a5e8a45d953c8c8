ghost use Rattle.std.specs.Prelude.{◌≡◌, [], fold, flat_map, map, List, IfOk};
ghost use Rattle.kp_tree_grammar.specs.View.{domain_view, problem_view};
ghost use Rattle.kp_names_semantics.specs.Names.{Name};
ghost use Rattle.kp_names_semantics.specs.Numbering.{index_of};
ghost use Rattle.kp_names_semantics.specs.Types.{objects};
ghost use Rattle.kp_names_declared.specs.Steps.{with_name, under, AreBelow, range_of, IsRowOf};

use crate::below::OBJECT;
use crate::name_set::NameSet;
use crate::tables::Names;
use crate::under::Under;
use kp_base::{Memory, Row};
use std::alloc::Global;

// The names under some types.
fn names_under<'a>(alloc: Global, lines: &Under<'a>, types: &NameSet) -> Result<NameSet<'a>, Memory>
    ensures { IfOk result (λ found. found ≡ fold with_name [] (flat_map (under lines.now) types.now)) }
{
    let mut found = NameSet::new(alloc);
    for name in types.names() {
        lines.add_to(name, &mut found)?;
    }
    Ok(found)
}

// The numbers of objects, ascending.
fn numbers(alloc: Global, names: &Names, found: &NameSet) -> Result<Row<u32>, Memory>
    ensures { IfOk result (λ row. IsRowOf (map (index_of (objects (domain_view names.now.domain) (problem_view names.now.problem))) found.now) row) }
{
    let mut numbers = Vec::new(alloc);
    for name in found.names() {
        numbers.push(names.number_of(name))?;
    }
    numbers.sort_unstable();
    numbers.dedup();
    Ok(Row::from_vec(numbers))
}

/// The objects of some types, given what is below these types.
pub fn objects_of(alloc: Global, names: &Names, below: &NameSet) -> Result<Row<u32>, Memory>
    ensures { (ts : List Name) → AreBelow (domain_view names.now.domain).kinds ts below.now → IfOk result (λ row. row ≡ range_of (domain_view names.now.domain) (problem_view names.now.problem) ts) }
{
    if below.has(OBJECT) {
        let row = numbers(alloc, names, names.objects())?;
        Ok(row)
    } else {
        let found = names_under(alloc, names.objects_under(), below)?;
        let row = numbers(alloc, names, &found)?;
        Ok(row)
    }
}
