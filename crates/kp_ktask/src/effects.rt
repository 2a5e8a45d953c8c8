ghost use Rattle.std.specs.Prelude.{◌≡◌, ◌++◌, IfOk, OnOk};
ghost use Rattle.std.specs.List.{flat_map};
ghost use Rattle.kp_write.specs.Facts.{opposites};
ghost use Rattle.kp_law_ktask.specs.Task.{support, cancellation, effects_under, effects_from};

use crate::numbers::{clear, number, set_numbers};
use kp_base::{Effect, Lit, LitSet, Memory, Row};
use kp_classic::{Conds, OpEffect};
use std::alloc::Global;

/// Room for an effect: one without conditions.
pub fn effect_room(alloc: Global) -> OpEffect {
    OpEffect {
        cond: Conds {
            yes: Row::new(alloc),
            no: Row::new(alloc),
        },
        fact: 0,
        adds: false,
    }
}

/// Makes it the effect that makes the result known where the conditions are. No memory is taken but for more conditions
/// than it had room for.
pub fn set_support(
    alloc: Global,
    made: &mut OpEffect,
    atoms: u32,
    tag: u32,
    effect: &Effect,
) -> Result<(), Memory>
    ensures { OnOk result (made.new ≡ support atoms tag effect.now) }
{
    made.fact = number(atoms, tag, effect.result)?;
    made.adds = true;
    clear(alloc, &mut made.cond.no);
    set_numbers(alloc, &mut made.cond.yes, atoms, tag, effect.cond.slice())
}

// The negations of the literals.
fn opposites(alloc: Global, lits: &[Lit]) -> Result<LitSet, Memory>
    ensures { IfOk result (λ set. set ≡ opposites lits.now) }
{
    let mut set = LitSet::new(alloc);
    for lit in lits {
        set.insert(lit.negated())?;
    }
    Ok(set)
}

/// Makes it the effect that makes the negation of the result known no longer where the negation of no condition is
/// known.
pub fn set_cancellation(
    alloc: Global,
    made: &mut OpEffect,
    atoms: u32,
    tag: u32,
    effect: &Effect,
) -> Result<(), Memory>
    ensures { OnOk result (made.new ≡ cancellation atoms tag effect.now) }
{
    made.fact = number(atoms, tag, effect.result.negated())?;
    made.adds = false;
    clear(alloc, &mut made.cond.yes);
    let denied = opposites(alloc, effect.cond.slice())?;
    set_numbers(alloc, &mut made.cond.no, atoms, tag, denied.slice())
}

fn support(alloc: Global, atoms: u32, tag: u32, effect: &Effect) -> Result<OpEffect, Memory>
    ensures { IfOk result (λ e. e ≡ support atoms tag effect.now) }
{
    let mut made = effect_room(alloc);
    set_support(alloc, &mut made, atoms, tag, effect)?;
    Ok(made)
}

fn cancellation(alloc: Global, atoms: u32, tag: u32, effect: &Effect) -> Result<OpEffect, Memory>
    ensures { IfOk result (λ e. e ≡ cancellation atoms tag effect.now) }
{
    let mut made = effect_room(alloc);
    set_cancellation(alloc, &mut made, atoms, tag, effect)?;
    Ok(made)
}

// Adds both for each effect, under one tag.
fn push_under(
    alloc: Global,
    row: &mut Row<OpEffect>,
    atoms: u32,
    tag: u32,
    effects: &[Effect],
) -> Result<(), Memory>
    ensures { OnOk result (row.new ≡ row.old ++ flat_map (effects_under atoms tag) effects.now) }
{
    for effect in effects {
        row.push(support(alloc, atoms, tag, effect)?)?;
        row.push(cancellation(alloc, atoms, tag, effect)?)?;
    }
    Ok(())
}

/// The effects under each tag.
pub fn all_effects(
    alloc: Global,
    atoms: u32,
    tags: u32,
    effects: &[Effect],
) -> Result<Row<OpEffect>, Memory>
    ensures { IfOk result (λ row. row ≡ effects_from atoms 0 tags effects.now) }
{
    let mut row = Row::new(alloc);
    for tag in 0..tags {
        push_under(alloc, &mut row, atoms, tag, effects)?;
    }
    Ok(row)
}
