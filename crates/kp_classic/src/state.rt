ghost use Rattle.std.specs.Prelude.{◌≡◌, ◌<◌, ◌↔◌, ◌&&◌, ◌||◌, ℕ, false, not, nat_eq, IfOk};
ghost use Rattle.kp_classic.specs.States.{has, fact_set_of, IsBefore};

use kp_base::Memory;
use kp_bits::Bits;
use std::alloc::Global;
use std::cmp::Ordering;
use std::marker::Model;

/// A state of a task. Contracts see the number of facts and the ascending list of those that hold.
#[derive(Drop)]
pub struct State {
    bits: Bits,
}

impl Model for State {
    ghost use Rattle.kp_classic.specs.States.{FactSet};
    ghost use Rattle.kp_classic.specs.Packed.{set_of};

    ghost Value = { FactSet };

    ghost view = { λ s. set_of s.bits };
}

impl State {
    /// The state of so many facts in which none holds.
    pub fn empty(alloc: Global, facts: u32) -> Result<State, Memory>
        ensures facts { IfOk result (λ s. s.facts ≡ facts) }
        ensures none { IfOk result (λ s. (f : ℕ) → has s.hold f ≡ false) }
    {
        Ok(State {
            bits: Bits::new(alloc, facts)?,
        })
    }

    /// The list of the facts that hold is ascending, and each is below the number of facts. A law; nothing runs.
    pub fn ascends(&self)
        ensures { self.now ≡ fact_set_of self.now.facts (has self.now.hold) }
    {
        let _bits = &self.bits;
    }

    /// Whether a fact holds.
    pub fn holds(&self, fact: u32) -> bool
        requires { fact < self.now.facts }
        ensures { result ≡ has self.now.hold fact }
    {
        self.bits.get(fact)
    }

    /// Makes a fact hold.
    pub(crate) fn add(&mut self, fact: u32)
        requires { fact < self.old.facts }
        ensures facts { self.new.facts ≡ self.old.facts }
        ensures hold { (f : ℕ) → f < self.old.facts → has self.new.hold f ≡ (nat_eq f fact || has self.old.hold f) }
    {
        self.bits.set(fact);
    }

    /// Makes a fact hold no longer.
    pub(crate) fn delete(&mut self, fact: u32)
        requires { fact < self.old.facts }
        ensures facts { self.new.facts ≡ self.old.facts }
        ensures hold { (f : ℕ) → f < self.old.facts → has self.new.hold f ≡ (has self.old.hold f && not (nat_eq f fact)) }
    {
        self.bits.clear(fact);
    }

    /// Makes the state equal to the other.
    pub fn copy_from(&mut self, other: &State)
        requires { self.old.facts ≡ other.now.facts }
        ensures { self.new ≡ other.now }
    {
        self.bits.copy_from(&other.bits);
    }

    /// Which of two states is less: the one that lacks the first fact in which they differ.
    pub fn order(&self, other: &State) -> Ordering
        requires { self.now.facts ≡ other.now.facts }
        ensures less { (result ≡ Ordering.Less) ↔ IsBefore self.now other.now }
        ensures equal { (result ≡ Ordering.Equal) ↔ (self.now ≡ other.now) }
        ensures greater { (result ≡ Ordering.Greater) ↔ IsBefore other.now self.now }
    {
        match self.bits.first_difference(&other.bits) {
            Some(fact) => self.holds(fact).cmp(&other.holds(fact)),
            None => Ordering::Equal,
        }
    }
}
