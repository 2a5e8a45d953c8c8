//! The facts that an initial formula says.
ghost use Rattle.std.specs.Prelude.{◌≡◌, ◌<◌, ◌||◌, ℕ, [], ◌∷◌, ◌++◌, true, IfOk, OnOk};
ghost use Rattle.std.specs.List.{list_any, list_all};
ghost use Rattle.kp_base.specs.Implicates.{are_below};
ghost use Rattle.kp_base.specs.Lists.{only_if};
ghost use Rattle.kp_base.specs.Lit.{positive, same_lit, has as has_literal};
ghost use Rattle.kp_classic.specs.Grounded.{is_said};
ghost use Rattle.kp_classic.specs.States.{has, holding_among};

use crate::State;
use kp_base::{Initial, Lit, LitSet, Memory, Row};
use std::alloc::Global;

// Makes the atom of a positive literal hold.
fn say(lit: &Lit, state: &mut State)
    requires { lit.now.atom.0 < state.old.facts }
    ensures facts { state.new.facts ≡ state.old.facts }
    ensures hold { (f : ℕ) → f < state.old.facts → has state.new.hold f ≡ (same_lit (positive f) lit.now || has state.old.hold f) }
{
    if lit.positive {
        state.add(lit.atom.0);
    }
}

// Makes the atoms of the positive literals hold.
fn say_all(lits: &[Lit], state: &mut State)
    requires { are_below state.old.facts lits.now ≡ true }
    ensures facts { state.new.facts ≡ state.old.facts }
    ensures hold { (f : ℕ) → f < state.old.facts → has state.new.hold f ≡ (has_literal lits.now (positive f) || has state.old.hold f) }
{
    for lit in lits {
        say(lit, state);
    }
}

// Makes the atoms hold that stand in a clause.
fn say_clauses(clauses: &[LitSet], state: &mut State)
    requires { list_all (are_below state.old.facts) clauses.now ≡ true }
    ensures facts { state.new.facts ≡ state.old.facts }
    ensures hold { (f : ℕ) → f < state.old.facts → has state.new.hold f ≡ (list_any (λ c. has_literal c (positive f)) clauses.now || has state.old.hold f) }
{
    for clause in clauses {
        say_all(clause.slice(), state);
    }
}

// Adds a fact to the list, where it holds.
fn push_held(state: &State, fact: u32, facts: &mut Row<u32>) -> Result<(), Memory>
    requires { fact < state.now.facts }
    ensures { OnOk result (facts.new ≡ facts.old ++ only_if (has state.now.hold fact) (fact ∷ [])) }
{
    if state.holds(fact) {
        facts.push(fact)?;
    }
    Ok(())
}

// The facts that hold, ascending.
fn held(alloc: Global, count: u32, state: &State) -> Result<Row<u32>, Memory>
    requires { state.now.facts ≡ count }
    ensures { IfOk result (λ facts. facts ≡ holding_among count (has state.now.hold)) }
{
    let mut facts = Row::new(alloc);
    for fact in 0..count {
        push_held(state, fact, &mut facts)?;
    }
    Ok(facts)
}

/// Those of the first atoms that stand in a clause, ascending.
pub(crate) fn said_facts(alloc: Global, count: u32, initial: &Initial) -> Result<Row<u32>, Memory>
    requires { list_all (are_below count) initial.now.clauses ≡ true }
    ensures { IfOk result (λ facts. facts ≡ holding_among count (is_said initial.now)) }
{
    let mut state = State::empty(alloc, count)?;
    say_clauses(initial.clauses.slice(), &mut state);
    let facts = held(alloc, count, &state)?;
    Ok(facts)
}
