ghost use Rattle.std.specs.Prelude.{◌≡◌, ◌<◌, [], ◌++◌, IfOk, OnOk};
ghost use Rattle.kp_law_ktask.specs.Task.{number, numbers};
ghost use Rattle.kp_ktask.specs.Translated.{IsLiteralOf};

use kp_base::{AtomId, Lit, Memory, Row};
use std::alloc::Global;
use std::mem;

/// The number of a literal's fact under a tag. One that a `u32` doesn't count is want of memory.
pub fn number(atoms: u32, tag: u32, lit: Lit) -> Result<u32, Memory>
    ensures { IfOk result (λ fact. fact ≡ number atoms (record { tag = tag; lit = lit })) }
{
    let earlier = u64::from(tag)
        .checked_mul(2 * u64::from(atoms))
        .ok_or(Memory)?;
    let number = earlier.checked_add(lit.code()).ok_or(Memory)?;
    match u32::try_from(number) {
        Ok(fact) => Ok(fact),
        Err(_) => Err(Memory),
    }
}

/// Adds the numbers of the literals' facts.
pub fn push_numbers(row: &mut Row<u32>, atoms: u32, tag: u32, lits: &[Lit]) -> Result<(), Memory>
    ensures { OnOk result (row.new ≡ row.old ++ numbers atoms tag lits.now) }
{
    for lit in lits {
        row.push(number(atoms, tag, *lit)?)?;
    }
    Ok(())
}

/// The numbers of the literals' facts.
pub fn numbers(alloc: Global, atoms: u32, tag: u32, lits: &[Lit]) -> Result<Row<u32>, Memory>
    ensures { IfOk result (λ row. row ≡ numbers atoms tag lits.now) }
{
    let mut row = Row::new(alloc);
    push_numbers(&mut row, atoms, tag, lits)?;
    Ok(row)
}

/// Takes all numbers out, and keeps the room.
pub fn clear(alloc: Global, row: &mut Row<u32>)
    ensures { row.new ≡ [] }
{
    let mut items = mem::replace(row, Row::new(alloc)).into_vec();
    items.clear();
    *row = Row::from_vec(items);
}

/// Makes them the numbers of the literals' facts.
pub fn set_numbers(
    alloc: Global,
    row: &mut Row<u32>,
    atoms: u32,
    tag: u32,
    lits: &[Lit],
) -> Result<(), Memory>
    ensures { OnOk result (row.new ≡ numbers atoms tag lits.now) }
{
    clear(alloc, row);
    push_numbers(row, atoms, tag, lits)
}

/// The literal whose fact has this number, under whichever tag.
pub fn literal_of(atoms: u32, fact: u32) -> Lit
    requires { 0 < atoms }
    ensures { IsLiteralOf atoms fact result }
{
    let code = u64::from(fact) % (2 * u64::from(atoms));
    Lit {
        atom: AtomId((code / 2) as u32),
        positive: code % 2 == 0,
    }
}
