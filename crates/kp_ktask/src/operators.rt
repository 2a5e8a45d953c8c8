ghost use Rattle.std.specs.Prelude.{◌≡◌, ◌∷◌, [], ◌++◌, true, map, IfOk, OnOk};
ghost use Rattle.kp_names_semantics.specs.Encoding.{encoded};
ghost use Rattle.kp_names_semantics.specs.Strip.{do_front};
ghost use Rattle.kp_law_ktask.specs.Task.{number, op_of, merge_word, merge_op, merge_ops_from};

use crate::effects::all_effects;
use crate::numbers::{number, numbers};
use kp_base::{Action, GroundName, Lit, Memory, Merge, Row, Text};
use kp_classic::{Conds, Op, OpEffect};
use kp_plans::put_word;
use kp_plans_spelling::{put, put_number};
use std::alloc::Global;

fn operator_name(alloc: Global, name: &GroundName) -> Result<Text, Memory>
    ensures { IfOk result (λ text. text ≡ do_front ++ encoded name.now) }
{
    let mut out = Vec::new(alloc);
    put(&mut out, b"do_-")?;
    put_word(&mut out, name)?;
    Ok(Text::from_slice(alloc, &out)?)
}

/// The operator of an action. With no tags it has no effects.
pub fn operator(alloc: Global, atoms: u32, tags: u32, action: &Action) -> Result<Op, Memory>
    ensures { IfOk result (λ o. o ≡ op_of atoms tags action.now) }
{
    let name = operator_name(alloc, &action.name)?;
    let yes = numbers(alloc, atoms, 0, action.pre.slice())?;
    let effects = all_effects(alloc, atoms, tags, action.effects.slice())?;
    Ok(Op {
        name,
        pre: Conds {
            yes,
            no: Row::new(alloc),
        },
        effects,
    })
}

/// Adds the operators of actions.
pub fn push_operators(
    alloc: Global,
    row: &mut Row<Op>,
    atoms: u32,
    tags: u32,
    actions: &[Action],
) -> Result<(), Memory>
    ensures { OnOk result (row.new ≡ row.old ++ map (op_of atoms tags) actions.now) }
{
    for action in actions {
        row.push(operator(alloc, atoms, tags, action)?)?;
    }
    Ok(())
}

fn merge_name(alloc: Global, merge: u32) -> Result<Text, Memory>
    ensures { IfOk result (λ text. text ≡ merge_word merge) }
{
    let mut out = Vec::new(alloc);
    put(&mut out, b"merge_-")?;
    put_number(&mut out, u64::from(merge))?;
    Ok(Text::from_slice(alloc, &out)?)
}

// The facts that a literal is known under each of some tags.
fn under_tags(alloc: Global, atoms: u32, lit: Lit, tags: &[u32]) -> Result<Row<u32>, Memory>
    ensures { IfOk result (λ row. row ≡ map (λ t. number atoms (record { tag = t; lit = lit })) tags.now) }
{
    let mut row = Row::new(alloc);
    for tag in tags {
        row.push(number(atoms, *tag, lit)?)?;
    }
    Ok(row)
}

// The one effect of a merge's operator.
fn merged(alloc: Global, atoms: u32, target: Lit) -> Result<Row<OpEffect>, Memory>
    ensures { IfOk result (λ row. row ≡ record { cond = record { yes = []; no = [] }; fact = number atoms (record { tag = 0; lit = target }); adds = true } ∷ []) }
{
    let fact = number(atoms, 0, target)?;
    let mut row = Row::new(alloc);
    row.push(OpEffect {
        cond: Conds {
            yes: Row::new(alloc),
            no: Row::new(alloc),
        },
        fact,
        adds: true,
    })?;
    Ok(row)
}

/// The operator of a merge of this number.
pub fn merge_operator(alloc: Global, atoms: u32, number: u32, merge: &Merge) -> Result<Op, Memory>
    ensures { IfOk result (λ o. o ≡ merge_op atoms number merge.now) }
{
    let name = merge_name(alloc, number)?;
    let yes = under_tags(alloc, atoms, merge.target, merge.tags.slice())?;
    let effects = merged(alloc, atoms, merge.target)?;
    Ok(Op {
        name,
        pre: Conds {
            yes,
            no: Row::new(alloc),
        },
        effects,
    })
}

/// Adds the operators of merges.
pub fn push_merges(
    alloc: Global,
    row: &mut Row<Op>,
    atoms: u32,
    merges: &[Merge],
) -> Result<(), Memory>
    ensures { OnOk result (row.new ≡ row.old ++ merge_ops_from atoms 0 merges.now) }
{
    let mut number = 0u32;
    for merge in merges {
        row.push(merge_operator(alloc, atoms, number, merge)?)?;
        number = number.checked_add(1).ok_or(Memory)?;
    }
    Ok(())
}
