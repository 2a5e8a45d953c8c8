//! The marks of conditions in the rows of results.
ghost use Rattle.std.specs.Prelude.{◌≡◌, ◌<◌, ◌*◌, ◌&&◌, true, length, nat_eq};
ghost use Rattle.std.specs.List.{list_all, list_any};
ghost use Rattle.kp_base.specs.Lit.{code_of};
ghost use Rattle.kp_base.specs.Implicates.{effect_below, action_below};
ghost use Rattle.kp_relevance.specs.Tabled.{at_both, at_pair, marks_of, marks_of_all, IsSquare, AddsMarks};

use kp_base::{Action, Effect, Lit};
use kp_bits::Bits;

// Sets one bit.
fn mark(rows: &mut [Bits], j: usize, i: u32)
    requires square { IsSquare (length rows.old) rows.old }
    requires row { j < length rows.old }
    requires bit { i < length rows.old }
    ensures { AddsMarks (length rows.old) (λ r s. nat_eq r j && nat_eq s i) rows.old rows.new }
{
    rows[j].set(i);
}

// Marks a literal in the row of another.
fn mark_lit(rows: &mut [Bits], from: Lit, to: Lit)
    requires square { IsSquare (length rows.old) rows.old }
    requires few { length rows.old < 4294967296 }
    requires from { code_of from < length rows.old }
    requires to { code_of to < length rows.old }
    ensures { AddsMarks (length rows.old) (at_both from to) rows.old rows.new }
{
    mark(rows, to.code() as usize, from.code() as u32);
}

// Marks a literal in the row of another, and its negation in the row of the other's.
fn mark_pair(rows: &mut [Bits], from: Lit, to: Lit, atoms: u32)
    requires square { IsSquare (length rows.old) rows.old }
    requires few { length rows.old < 4294967296 }
    requires many { length rows.old ≡ 2 * atoms }
    requires from { from.atom.0 < atoms }
    requires to { to.atom.0 < atoms }
    ensures { AddsMarks (length rows.old) (at_pair from to) rows.old rows.new }
{
    mark_lit(rows, from, to);
    mark_lit(rows, from.negated(), to.negated());
}

// Marks what an effect joins.
fn mark_effect(rows: &mut [Bits], e: &Effect, atoms: u32)
    requires square { IsSquare (length rows.old) rows.old }
    requires few { length rows.old < 4294967296 }
    requires many { length rows.old ≡ 2 * atoms }
    requires below { effect_below atoms e.now ≡ true }
    ensures { AddsMarks (length rows.old) (marks_of e.now) rows.old rows.new }
{
    let cond = e.cond.slice();
    for l in cond {
        mark_pair(rows, *l, e.result, atoms);
    }
}

// Marks what the effects of an action join.
fn mark_effects(rows: &mut [Bits], effects: &[Effect], atoms: u32)
    requires square { IsSquare (length rows.old) rows.old }
    requires few { length rows.old < 4294967296 }
    requires many { length rows.old ≡ 2 * atoms }
    requires below { list_all (effect_below atoms) effects.now ≡ true }
    ensures { AddsMarks (length rows.old) (λ j i. list_any (λ e. marks_of e j i) effects.now) rows.old rows.new }
{
    for e in effects {
        mark_effect(rows, e, atoms);
    }
}

fn mark_action(rows: &mut [Bits], a: &Action, atoms: u32)
    requires square { IsSquare (length rows.old) rows.old }
    requires few { length rows.old < 4294967296 }
    requires many { length rows.old ≡ 2 * atoms }
    requires below { action_below atoms a.now ≡ true }
    ensures { AddsMarks (length rows.old) (λ j i. list_any (λ e. marks_of e j i) a.now.effects) rows.old rows.new }
{
    mark_effects(rows, a.effects.slice(), atoms);
}

/// Marks what the effects of actions join.
pub(crate) fn mark_actions(rows: &mut [Bits], actions: &[Action], atoms: u32)
    requires square { IsSquare (length rows.old) rows.old }
    requires few { length rows.old < 4294967296 }
    requires many { length rows.old ≡ 2 * atoms }
    requires below { list_all (action_below atoms) actions.now ≡ true }
    ensures { AddsMarks (length rows.old) (marks_of_all actions.now) rows.old rows.new }
{
    for a in actions {
        mark_action(rows, a, atoms);
    }
}

/// Marks each literal in its own row.
pub(crate) fn mark_own(rows: &mut [Bits], n: u32)
    requires square { IsSquare n rows.old }
    ensures { AddsMarks n nat_eq rows.old rows.new }
{
    for k in 0..n {
        mark(rows, k as usize, k);
    }
}
