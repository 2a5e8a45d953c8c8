ghost use Rattle.std.specs.Prelude.{◌≡◌, map, IfOk, OnOk};
ghost use Rattle.std.specs.List.{flat_map};
ghost use Rattle.kp_law_texts.specs.Pieces.{each, Puts};
ghost use Rattle.kp_write.specs.Written.{effect_line, op_front, op};
ghost use Rattle.kp_write.specs.Named.{fact_name, named_effect, named_op, domain_of};
ghost use Rattle.kp_law_ktask.specs.Task.{effects_under, effects_from, op_of, merge_op, merge_ops_from, task_of};

use kp_base::{Action, Effect, Ground, Memory, Merge, Row, TagTable, Text};
use kp_classic::OpEffect;
use kp_ktask::{effect_room, merge_operator, operator, set_cancellation, set_support, sizes};
use kp_write::{
    put_domain_end, put_domain_front, put_effect, put_operator, put_operator_end,
    put_operator_front,
};
use std::alloc::Global;

// Adds the support and the cancellation of each effect under a tag. They are made one at a time, in one room.
fn put_under(
    alloc: Global,
    out: &mut Vec<u8>,
    facts: &[Text],
    room: &mut OpEffect,
    atoms: u32,
    tag: u32,
    effects: &[Effect],
) -> Result<(), Memory>
    ensures { OnOk result (Puts out.old.items out.new.items (each effect_line (map (named_effect facts.now) (flat_map (effects_under atoms tag) effects.now)))) }
{
    for effect in effects {
        set_support(alloc, room, atoms, tag, effect)?;
        put_effect(out, facts, room)?;
        set_cancellation(alloc, room, atoms, tag, effect)?;
        put_effect(out, facts, room)?;
    }
    Ok(())
}

// Adds the effects under each tag.
fn put_effects(
    alloc: Global,
    out: &mut Vec<u8>,
    facts: &[Text],
    atoms: u32,
    tags: u32,
    effects: &[Effect],
) -> Result<(), Memory>
    ensures { OnOk result (Puts out.old.items out.new.items (each effect_line (map (named_effect facts.now) (effects_from atoms 0 tags effects.now)))) }
{
    let mut room = effect_room(alloc);
    for tag in 0..tags {
        put_under(alloc, out, facts, &mut room, atoms, tag, effects)?;
    }
    Ok(())
}

fn put_front(
    alloc: Global,
    out: &mut Vec<u8>,
    facts: &[Text],
    atoms: u32,
    action: &Action,
) -> Result<(), Memory>
    ensures { OnOk result (Puts out.old.items out.new.items (op_front (op_of atoms 0 action.now).name (map (fact_name facts.now) (op_of atoms 0 action.now).pre.yes))) }
{
    let front = operator(alloc, atoms, 0, action)?;
    let put = put_operator_front(out, facts, &front);
    drop(front);
    put
}

// Adds the operator of an action.
fn put_action(
    alloc: Global,
    out: &mut Vec<u8>,
    facts: &[Text],
    atoms: u32,
    tags: u32,
    action: &Action,
) -> Result<(), Memory>
    ensures { OnOk result (Puts out.old.items out.new.items (op (named_op facts.now (op_of atoms tags action.now)))) }
{
    put_front(alloc, out, facts, atoms, action)?;
    put_effects(alloc, out, facts, atoms, tags, action.effects.slice())?;
    put_operator_end(out)?;
    Ok(())
}

fn put_actions(
    alloc: Global,
    out: &mut Vec<u8>,
    facts: &[Text],
    atoms: u32,
    tags: u32,
    actions: &[Action],
) -> Result<(), Memory>
    ensures { OnOk result (Puts out.old.items out.new.items (each op (map (named_op facts.now) (map (op_of atoms tags) actions.now)))) }
{
    for action in actions {
        put_action(alloc, out, facts, atoms, tags, action)?;
    }
    Ok(())
}

fn put_merge(
    alloc: Global,
    out: &mut Vec<u8>,
    facts: &[Text],
    atoms: u32,
    number: u32,
    merge: &Merge,
) -> Result<(), Memory>
    ensures { OnOk result (Puts out.old.items out.new.items (op (named_op facts.now (merge_op atoms number merge.now)))) }
{
    let merge = merge_operator(alloc, atoms, number, merge)?;
    put_operator(out, facts, &merge)
}

fn put_merges(
    alloc: Global,
    out: &mut Vec<u8>,
    facts: &[Text],
    atoms: u32,
    merges: &[Merge],
) -> Result<(), Memory>
    ensures { OnOk result (Puts out.old.items out.new.items (each op (map (named_op facts.now) (merge_ops_from atoms 0 merges.now)))) }
{
    let mut number = 0u32;
    for merge in merges {
        put_merge(alloc, out, facts, atoms, number, merge)?;
        number = number.checked_add(1).ok_or(Memory)?;
    }
    Ok(())
}

// Adds the operators of actions, and then those of merges.
fn put_operators(
    alloc: Global,
    out: &mut Vec<u8>,
    facts: &[Text],
    ground: &Ground,
    table: &TagTable,
) -> Result<(), Memory>
    ensures { OnOk result (Puts out.old.items out.new.items (each op (map (named_op facts.now) (task_of ground.now table.now).ops))) }
{
    let (atoms, tags) = sizes(ground, table)?;
    put_actions(alloc, out, facts, atoms, tags, ground.actions.slice())?;
    put_merges(alloc, out, facts, atoms, table.merges.slice())?;
    Ok(())
}

/// The domain file of the task, whose facts have these names. No operator of an action is made as a whole.
pub fn domain_text(
    alloc: Global,
    ground: &Ground,
    table: &TagTable,
    facts: &[Text],
) -> Result<Row<u8>, Memory>
    requires { facts.now ≡ (task_of ground.now table.now).facts }
    ensures { IfOk result (λ bytes. bytes ≡ domain_of (task_of ground.now table.now)) }
{
    let mut out = Vec::new(alloc);
    put_domain_front(&mut out, facts)?;
    put_operators(alloc, &mut out, facts, ground, table)?;
    put_domain_end(&mut out)?;
    Ok(Row::from_vec(out))
}
