ghost use Rattle.std.specs.Prelude.{◌≡◌, ◌∷◌, [], ◌++◌, ◌&&◌, ◌==◌, false, length, map, OnOk};
ghost use Rattle.kp_law_texts.specs.Pieces.{each, Puts, spaced};
ghost use Rattle.kp_write.specs.Written.{fact, fact_line, signed, guarded, when_put, effect_line, precondition, op_front, op_end, op};
ghost use Rattle.kp_write.specs.Named.{fact_name, signed_fact, named_conds, named_effect, named_op};

use kp_base::{Memory, Text};
use kp_classic::{Conds, Op, OpEffect};
use kp_plans_spelling::put;

fn put_byte(out: &mut Vec<u8>, byte: u8) -> Result<(), Memory>
    ensures { OnOk result (out.new.items ≡ out.old.items ++ byte ∷ []) }
{
    out.push(byte)?;
    Ok(())
}

fn put_name(out: &mut Vec<u8>, facts: &[Text], number: u32) -> Result<(), Memory>
    ensures { OnOk result (out.new.items ≡ out.old.items ++ fact_name facts.now number) }
{
    match facts.get(number as usize) {
        Some(name) => put(out, name.slice()),
        None => Ok(()),
    }
}

// (NAME)
fn put_fact(out: &mut Vec<u8>, facts: &[Text], number: u32) -> Result<(), Memory>
    ensures { OnOk result (Puts out.old.items out.new.items (fact (fact_name facts.now number))) }
{
    put_byte(out, b'(')?;
    put_name(out, facts, number)?;
    put_byte(out, b')')?;
    Ok(())
}

// (not (NAME))
fn put_denied(out: &mut Vec<u8>, facts: &[Text], number: u32) -> Result<(), Memory>
    ensures { OnOk result (Puts out.old.items out.new.items (signed (signed_fact facts.now false number))) }
{
    put(out, b"(not ")?;
    put_fact(out, facts, number)?;
    put_byte(out, b')')?;
    Ok(())
}

fn put_signed(out: &mut Vec<u8>, facts: &[Text], holds: bool, number: u32) -> Result<(), Memory>
    ensures { OnOk result (Puts out.old.items out.new.items (signed (signed_fact facts.now holds number))) }
{
    if holds {
        put_fact(out, facts, number)
    } else {
        put_denied(out, facts, number)
    }
}

fn put_spaced(out: &mut Vec<u8>, facts: &[Text], holds: bool, numbers: &[u32]) -> Result<(), Memory>
    ensures { OnOk result (Puts out.old.items out.new.items (each (spaced signed) (map (signed_fact facts.now holds) numbers.now))) }
{
    for number in numbers {
        put_byte(out, b' ')?;
        put_signed(out, facts, holds, *number)?;
    }
    Ok(())
}

/// Adds a line for each fact.
pub fn put_lines(out: &mut Vec<u8>, facts: &[Text], numbers: &[u32]) -> Result<(), Memory>
    ensures { OnOk result (Puts out.old.items out.new.items (each fact_line (map (fact_name facts.now) numbers.now))) }
{
    for number in numbers {
        put_fact(out, facts, *number)?;
        put_byte(out, b'\n')?;
    }
    Ok(())
}

// (when (and C C) R)
fn put_when(out: &mut Vec<u8>, facts: &[Text], effect: &OpEffect) -> Result<(), Memory>
    ensures { OnOk result (Puts out.old.items out.new.items (when_put (named_conds facts.now effect.now.cond) (signed_fact facts.now effect.now.adds effect.now.fact))) }
{
    put(out, b"(when (and")?;
    put_spaced(out, facts, true, effect.cond.yes.slice())?;
    put_spaced(out, facts, false, effect.cond.no.slice())?;
    put(out, b") ")?;
    put_signed(out, facts, effect.adds, effect.fact)?;
    put_byte(out, b')')?;
    Ok(())
}

fn is_unconditional(cond: &Conds) -> bool
    ensures { result ≡ ((length cond.now.yes == 0) && (length cond.now.no == 0)) }
{
    cond.yes.len() == 0 && cond.no.len() == 0
}

fn put_guarded(out: &mut Vec<u8>, facts: &[Text], effect: &OpEffect) -> Result<(), Memory>
    ensures { OnOk result (Puts out.old.items out.new.items (guarded (named_conds facts.now effect.now.cond) (signed_fact facts.now effect.now.adds effect.now.fact))) }
{
    if is_unconditional(&effect.cond) {
        put_signed(out, facts, effect.adds, effect.fact)?;
    } else {
        put_when(out, facts, effect)?;
    }
    Ok(())
}

/// Adds an effect, on a line of its own.
pub fn put_effect(out: &mut Vec<u8>, facts: &[Text], effect: &OpEffect) -> Result<(), Memory>
    ensures { OnOk result (Puts out.old.items out.new.items (effect_line (named_effect facts.now effect.now))) }
{
    put_guarded(out, facts, effect)?;
    put_byte(out, b'\n')?;
    Ok(())
}

fn put_effects(out: &mut Vec<u8>, facts: &[Text], effects: &[OpEffect]) -> Result<(), Memory>
    ensures { OnOk result (Puts out.old.items out.new.items (each effect_line (map (named_effect facts.now) effects.now))) }
{
    for effect in effects {
        put_effect(out, facts, effect)?;
    }
    Ok(())
}

fn put_precondition(out: &mut Vec<u8>, facts: &[Text], pre: &Conds) -> Result<(), Memory>
    ensures { OnOk result (Puts out.old.items out.new.items (precondition (map (fact_name facts.now) pre.now.yes))) }
{
    if pre.yes.len() > 0 {
        put(out, b":precondition (and")?;
        put_spaced(out, facts, true, pre.yes.slice())?;
        put(out, b")\n")?;
    }
    Ok(())
}

/// Adds an operator as far as its effects.
pub fn put_operator_front(out: &mut Vec<u8>, facts: &[Text], operator: &Op) -> Result<(), Memory>
    ensures { OnOk result (Puts out.old.items out.new.items (op_front operator.now.name (map (fact_name facts.now) operator.now.pre.yes))) }
{
    put(out, b"(:action ")?;
    put(out, operator.name.slice())?;
    put(out, b"\n:parameters ()\n")?;
    put_precondition(out, facts, &operator.pre)?;
    put(out, b":effect (and\n")?;
    Ok(())
}

/// Adds what stands behind an operator's effects.
pub fn put_operator_end(out: &mut Vec<u8>) -> Result<(), Memory>
    ensures { OnOk result (Puts out.old.items out.new.items op_end) }
{
    put(out, b")\n)\n")?;
    Ok(())
}

/// Adds an operator.
pub fn put_operator(out: &mut Vec<u8>, facts: &[Text], operator: &Op) -> Result<(), Memory>
    ensures { OnOk result (Puts out.old.items out.new.items (op (named_op facts.now operator.now))) }
{
    put_operator_front(out, facts, operator)?;
    put_effects(out, facts, operator.effects.slice())?;
    put_operator_end(out)?;
    Ok(())
}

/// Adds a line for each name.
pub fn put_names(out: &mut Vec<u8>, names: &[Text]) -> Result<(), Memory>
    ensures { OnOk result (Puts out.old.items out.new.items (each fact_line names.now)) }
{
    for name in names {
        put_byte(out, b'(')?;
        put(out, name.slice())?;
        put(out, b")\n")?;
    }
    Ok(())
}
