//! The pairs that no initial state has together.
ghost use Rattle.std.specs.Prelude.{◌≡◌, ◌<◌, ◌≤◌, ◌+◌, ◌*◌, ◌&&◌, ℕ, [], ◌∷◌, true, not, length, nat_lt};
ghost use Rattle.std.specs.List.{list_all};
ghost use Rattle.kp_base.specs.Lit.{code_of};
ghost use Rattle.kp_base.specs.LitSet.{IsAscending};
ghost use Rattle.kp_clash_exclusive.specs.Paired.{IsSquare, words_of};
ghost use Rattle.kp_clash_exclusive.specs.Starting.{denies, denied, pair_of, all_with, between, IsMarkedWith};

use crate::pairs::{mark, words_of};
use kp_base::{Lit, LitSet};
use kp_bits::Bits;

// Marks the pair of two atoms, where they are different.
fn mark_both(atoms: u32, table: &mut Bits, p: u32, q: u32)
    requires square { IsSquare atoms table.old }
    requires below { p < atoms }
    requires below_too { q < atoms }
    ensures { IsMarkedWith atoms (pair_of p q) table.old table.new }
{
    if p != q {
        mark(atoms, table, p, q);
    }
}

// Marks the pairs of the atom with those from a number on and below another.
fn mark_between(atoms: u32, table: &mut Bits, p: u32, from: u32, to: u32)
    requires square { IsSquare atoms table.old }
    requires below { p < atoms }
    requires in_order { from ≤ to }
    requires end { to ≤ atoms }
    ensures { IsMarkedWith atoms (between p from to) table.old table.new }
{
    for q in from..to {
        mark_both(atoms, table, p, q);
    }
}

// Where the 64 atoms from 64 k on end, or all atoms do.
fn end_of(atoms: u32, k: u32) -> u32
    requires { k < 1024 }
    ensures within { result ≤ atoms }
    ensures at_most { result ≤ k * 64 + 64 }
    ensures all { (q : ℕ) → q < atoms → q < k * 64 + 64 → q < result }
{
    if k * 64 + 64 < atoms {
        k * 64 + 64
    } else {
        atoms
    }
}

// Marks the pairs of the atom with the 64 from 64 k on, if not all of them are marked.
fn mark_word(atoms: u32, table: &mut Bits, p: u32, k: u32)
    requires square { IsSquare atoms table.old }
    requires below { p < atoms }
    requires word { k < words_of atoms }
    requires few { k < 1024 }
    ensures { IsMarkedWith atoms (between p (k * 64) (k * 64 + 64)) table.old table.new }
{
    if table.word(p * words_of(atoms) + k) != u64::MAX {
        mark_between(atoms, table, p, k * 64, end_of(atoms, k));
    }
}

// Marks each pair with the atom.
fn mark_all(atoms: u32, table: &mut Bits, p: u32)
    requires square { IsSquare atoms table.old }
    requires below { p < atoms }
    ensures { IsMarkedWith atoms (all_with p) table.old table.new }
{
    for k in 0..words_of(atoms) {
        mark_word(atoms, table, p, k);
    }
}

// Marks the pairs that a clause of one literal denies.
fn mark_one(atoms: u32, table: &mut Bits, lit: Lit)
    requires square { IsSquare atoms table.old }
    requires below { lit.atom.0 < atoms }
    ensures { IsMarkedWith atoms (denies (lit ∷ [])) table.old table.new }
{
    if !lit.positive {
        mark_all(atoms, table, lit.atom.0);
    }
}

fn are_negative(one: Lit, other: Lit) -> bool
    ensures { result ≡ (not one.positive && not other.positive) }
{
    !one.positive && !other.positive
}

// Marks the pair that a clause of two literals denies.
fn mark_two(atoms: u32, table: &mut Bits, one: Lit, other: Lit)
    requires square { IsSquare atoms table.old }
    requires below { one.atom.0 < atoms }
    requires below_too { other.atom.0 < atoms }
    requires in_order { code_of one < code_of other }
    ensures { IsMarkedWith atoms (denies (one ∷ other ∷ [])) table.old table.new }
{
    if are_negative(one, other) {
        mark_both(atoms, table, one.atom.0, other.atom.0);
    }
}

// Marks the pairs that a clause denies.
fn mark_clause(atoms: u32, table: &mut Bits, clause: &[Lit])
    requires square { IsSquare atoms table.old }
    requires not_empty { 0 < length clause.now }
    requires ascending { IsAscending clause.now }
    requires below { list_all (λ l. nat_lt l.atom.0 atoms) clause.now ≡ true }
    ensures { IsMarkedWith atoms (denies clause.now) table.old table.new }
{
    if clause.len() == 1 {
        mark_one(atoms, table, clause[0]);
    } else if clause.len() == 2 {
        mark_two(atoms, table, clause[0], clause[1]);
    }
}

/// Marks the pairs that the clauses deny.
pub fn mark_clauses(atoms: u32, table: &mut Bits, clauses: &[LitSet])
    requires square { IsSquare atoms table.old }
    requires not_empty { list_all (λ c. nat_lt 0 (length c)) clauses.now ≡ true }
    requires below { list_all (λ c. list_all (λ l. nat_lt l.atom.0 atoms) c) clauses.now ≡ true }
    ensures { IsMarkedWith atoms (denied clauses.now) table.old table.new }
{
    for clause in clauses {
        mark_clause(atoms, table, clause.slice());
    }
}
