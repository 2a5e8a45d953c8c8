ghost use Rattle.std.specs.Prelude.{◌≡◌, ◌++◌, false, OnOk, slice_get};
ghost use Rattle.kp_law_texts.specs.Pieces.{Puts, each};
ghost use Rattle.kp_plans_spelling.specs.Spelling.{atom_put, signed_put, lit_put, lits_put, joined, literal_text, literals_text};

use crate::bytes::put;
use crate::names::put_numbered;
use kp_base::{AtomId, GroundName, Lit, Memory};

// The negation of an atom.
fn put_denied(out: &mut Vec<u8>, atoms: &[GroundName], atom: AtomId) -> Result<(), Memory>
    ensures { OnOk result (Puts out.old.items out.new.items (signed_put false (atom_put (slice_get atoms.now atom.0)))) }
{
    put(out, b"(not ")?;
    put_numbered(out, atoms, atom.0)?;
    put(out, b")")?;
    Ok(())
}

// A literal.
fn put_signed(out: &mut Vec<u8>, atoms: &[GroundName], literal: Lit) -> Result<(), Memory>
    ensures { OnOk result (Puts out.old.items out.new.items (lit_put atoms.now literal)) }
{
    if literal.positive {
        put_numbered(out, atoms, literal.atom.0)
    } else {
        put_denied(out, atoms, literal.atom)
    }
}

/// Adds a literal: an atom, or its negation.
#[tactic(auto, using(crate::proofs::Adding::adds))]
pub fn put_literal(out: &mut Vec<u8>, atoms: &[GroundName], literal: Lit) -> Result<(), Memory>
    ensures puts { OnOk result (Puts out.old.items out.new.items (lit_put atoms.now literal)) }
    ensures adds { OnOk result (out.new.items ≡ out.old.items ++ literal_text atoms.now literal) }
{
    put_signed(out, atoms, literal)
}

// Literals, a space before each.
fn put_each(out: &mut Vec<u8>, atoms: &[GroundName], literals: &[Lit]) -> Result<(), Memory>
    ensures { OnOk result (Puts out.old.items out.new.items (lits_put atoms.now literals.now)) }
{
    for literal in literals {
        put(out, b" ")?;
        put_signed(out, atoms, *literal)?;
    }
    Ok(())
}

/// Adds literals, each behind a space.
#[tactic(auto, using(crate::proofs::Adding::adds))]
pub fn put_literals(out: &mut Vec<u8>, atoms: &[GroundName], literals: &[Lit]) -> Result<(), Memory>
    ensures puts { OnOk result (Puts out.old.items out.new.items (lits_put atoms.now literals.now)) }
    ensures adds { OnOk result (out.new.items ≡ out.old.items ++ literals_text atoms.now literals.now) }
{
    put_each(out, atoms, literals)
}

/// Adds literals, with a space between.
pub fn put_joined(out: &mut Vec<u8>, atoms: &[GroundName], literals: &[Lit]) -> Result<(), Memory>
    ensures puts { OnOk result (Puts out.old.items out.new.items (joined (lit_put atoms.now) literals.now)) }
{
    match literals.split_first() {
        Some((first, others)) => {
            put_signed(out, atoms, *first)?;
            put_each(out, atoms, others)
        }
        None => Ok(()),
    }
}
