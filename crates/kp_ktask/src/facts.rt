ghost use Rattle.std.specs.Prelude.{◌≡◌, ◌++◌, length, map, IfOk, OnOk};
ghost use Rattle.std.specs.List.{flat_map};
ghost use Rattle.kp_write.specs.Facts.{sign_word, tag_word, atom_fact, facts_of_atom};
ghost use Rattle.kp_law_ktask.specs.Task.{name_of_fact, lits_from, facts_from, number, starts_from};

use crate::numbers::push_numbers;
use kp_base::{GroundName, Memory, Row, TagRow, Text};
use kp_plans::put_word;
use kp_plans_spelling::{put, put_number};
use std::alloc::Global;

fn put_sign(out: &mut Vec<u8>, positive: bool) -> Result<(), Memory>
    ensures { OnOk result (out.new.items ≡ out.old.items ++ sign_word positive) }
{
    if positive {
        put(out, b"kp_-")
    } else {
        put(out, b"kn_-")
    }
}

fn put_tag(out: &mut Vec<u8>, tag: u32) -> Result<(), Memory>
    ensures { OnOk result (out.new.items ≡ out.old.items ++ tag_word tag) }
{
    put(out, b"_-")?;
    put_number(out, u64::from(tag))?;
    Ok(())
}

// The name of the fact that an atom, or its negation, is known under a tag.
fn fact_name(alloc: Global, tag: u32, positive: bool, name: &GroundName) -> Result<Text, Memory>
    ensures { IfOk result (λ text. text ≡ atom_fact tag positive name.now) }
{
    let mut out = Vec::new(alloc);
    put_sign(&mut out, positive)?;
    put_word(&mut out, name)?;
    put_tag(&mut out, tag)?;
    Ok(Text::from_slice(alloc, &out)?)
}

// Adds the names of the facts of one tag.
fn push_facts(
    alloc: Global,
    row: &mut Row<Text>,
    tag: u32,
    atoms: &[GroundName],
) -> Result<(), Memory>
    ensures { OnOk result (row.new ≡ row.old ++ flat_map (facts_of_atom tag) atoms.now) }
{
    for name in atoms {
        row.push(fact_name(alloc, tag, true, name)?)?;
        row.push(fact_name(alloc, tag, false, name)?)?;
    }
    Ok(())
}

/// The names of all facts.
pub fn fact_names(alloc: Global, tags: u32, atoms: &[GroundName]) -> Result<Row<Text>, Memory>
    ensures { IfOk result (λ row. row ≡ map (name_of_fact atoms.now) (facts_from 0 tags (lits_from 0 (length atoms.now)))) }
{
    let mut row = Row::new(alloc);
    for tag in 0..tags {
        push_facts(alloc, &mut row, tag, atoms)?;
    }
    Ok(row)
}

/// The numbers of the facts that hold at the start.
pub fn start(alloc: Global, atoms: u32, tags: &[TagRow]) -> Result<Row<u32>, Memory>
    ensures { IfOk result (λ row. row ≡ map (number atoms) (starts_from 0 tags.now)) }
{
    let mut row = Row::new(alloc);
    let mut number = 0u32;
    for tag in tags {
        push_numbers(&mut row, atoms, number, tag.closure.slice())?;
        number = number.checked_add(1).ok_or(Memory)?;
    }
    Ok(row)
}
