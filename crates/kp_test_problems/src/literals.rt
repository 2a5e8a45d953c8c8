//! Literals and sets of them, from numbers of atoms, and what such sets have.

use kp_base::{AtomId, Lit, LitSet, Memory, Row};
use std::alloc::Global;

/// A literal: its atom, and whether it is positive.
pub type Sign = (u32, bool);

/// The literal of this sign.
pub fn literal(sign: Sign) -> Lit {
    Lit {
        atom: AtomId(sign.0),
        positive: sign.1,
    }
}

/// The set of these literals.
pub fn set(alloc: Global, signs: &[Sign]) -> Result<LitSet, Memory> {
    let mut set = LitSet::new(alloc);
    for sign in signs {
        set.insert(literal(*sign))?;
    }
    Ok(set)
}

/// A set for each of these lists: clauses, or tags.
pub fn sets(alloc: Global, lists: &[&[Sign]]) -> Result<Row<LitSet>, Memory> {
    let mut row = Row::new(alloc);
    for signs in lists {
        row.push(set(alloc, signs)?)?;
    }
    Ok(row)
}

/// Whether the literal has this sign.
pub fn is_literal(lit: Lit, sign: Sign) -> bool {
    lit.atom.0 == sign.0 && lit.positive == sign.1
}

/// Whether just these literals stand here, in this order.
pub fn are_literals(lits: &[Lit], expected: &[Sign]) -> bool {
    lits.len() == expected.len()
        && lits
            .iter()
            .zip(expected)
            .all(|(lit, sign)| is_literal(*lit, *sign))
}

/// Whether the sets have just these literals, each in its order.
pub fn are_sets(sets: &[LitSet], expected: &[&[Sign]]) -> bool {
    sets.len() == expected.len()
        && sets
            .iter()
            .zip(expected)
            .all(|(set, signs)| are_literals(set.slice(), signs))
}

/// Whether just these atoms stand here, in this order.
pub fn are_atoms(atoms: &[AtomId], numbers: &[u32]) -> bool {
    atoms.len() == numbers.len() && atoms.iter().zip(numbers).all(|(a, n)| a.0 == *n)
}
