ghost use Rattle.std.specs.Prelude.{◌≡◌, ◌+◌, ◌∷◌, [], fold, length, IfOk, OnOk};
ghost use Rattle.kp_tree_grammar.specs.View.{domain_view};
ghost use Rattle.kp_names_declared.specs.Steps.{with_name, lines_under, under, AreBelow, IsClosing};

use crate::name_set::NameSet;
use crate::tables::Names;
use crate::under::Under;
use kp_base::Memory;
use std::alloc::Global;

/// The type above all others.
pub const OBJECT: &[u8] = b"object";

fn after(number: u32) -> Result<u32, Memory>
    ensures { IfOk result (λ n. n ≡ number + 1) }
{
    number.checked_add(1).ok_or(Memory)
}

// Adds all names under these, those under them, and so on.
pub(crate) fn close<'a>(lines: &Under<'a>, names: &mut NameSet<'a>) -> Result<(), Memory>
    ensures { OnOk result (IsClosing lines.now names.old (length names.new) names.new) }
{
    let mut at = 0u32;
    'names: while let Some(name) = names.get(at) {
        lines.add_to(name, names)?;
        at = after(at)?;
    }
    Ok(())
}

/// The types right under a type.
pub fn types_under<'a>(alloc: Global, known: &Names<'a>, kind: &[u8]) -> Result<NameSet<'a>, Memory>
    ensures { IfOk result (λ found. found ≡ fold with_name [] (under (lines_under (domain_view known.now.domain).kinds) kind.now)) }
{
    let mut found = NameSet::new(alloc);
    known.types_under().add_to(kind, &mut found)?;
    Ok(found)
}

/// The types below one type.
pub fn below_type<'a>(
    alloc: Global,
    known: &Names<'a>,
    top: &'a [u8],
) -> Result<NameSet<'a>, Memory>
    ensures { IfOk result (λ below. AreBelow (domain_view known.now.domain).kinds (top.now ∷ []) below) }
{
    let mut below = NameSet::new(alloc);
    below.insert(top)?;
    close(known.types_under(), &mut below)?;
    Ok(below)
}

/// The types below one of several.
pub fn below_types<'a>(known: &Names<'a>, tops: NameSet<'a>) -> Result<NameSet<'a>, Memory>
    ensures { IfOk result (λ below. AreBelow (domain_view known.now.domain).kinds tops.entry below) }
{
    let mut below = tops;
    close(known.types_under(), &mut below)?;
    Ok(below)
}
