//! Which atoms a precondition asks for.
ghost use Rattle.std.specs.Prelude.{◌≡◌, true, false};
ghost use Rattle.std.specs.List.{list_any};
ghost use Rattle.kp_base.specs.Clashes.{are_exclusive};
ghost use Rattle.kp_base.specs.Lit.{positive};
ghost use Rattle.kp_clash_exclusive.specs.Paired.{is_pair};
ghost use Rattle.kp_clash_exclusive.specs.Left.{KeepsBits, is_asked, all_asked};

use crate::Pairs;
use crate::added::meets;
use crate::words::{WORDS, set_bit};
use kp_base::{Action, AtomId, Lit};

fn note(words: &mut [u64; WORDS], lit: &Lit)
    ensures noted { is_asked words.new lit.now ≡ true }
    ensures keeps { KeepsBits words.old words.new }
{
    if lit.positive {
        set_bit(words, lit.atom);
    }
}

/// The atoms of the positive literals, as far as pairs may have them.
pub(crate) fn atoms_asked(lits: &[Lit]) -> [u64; WORDS]
    ensures { all_asked result lits.now ≡ true }
{
    let mut words = [0u64; WORDS];
    for lit in lits {
        note(&mut words, lit);
    }
    words
}

/// Whether a literal of the precondition may never be true together with the atom.
pub fn may_exclude(pairs: &Pairs, action: &Action, asked: &[u64; WORDS], atom: AtomId) -> bool
    requires { all_asked asked.now action.now.pre ≡ true }
    ensures { result ≡ false → list_any (λ l. are_exclusive (is_pair pairs.now) l (positive atom.0)) action.now.pre ≡ false }
{
    let not_there = Lit {
        atom,
        positive: false,
    };
    meets(pairs, atom, asked) || action.pre.has(not_there)
}
