ghost use Rattle.std.specs.Prelude.{◌≡◌, ℕ, [], ◌∷◌, ◌++◌, nat_eq, option_copied, IfOk, OnOk};
ghost use Rattle.kp_base.specs.Lists.{only_if};
ghost use Rattle.kp_ground.specs.Adds.{adds_of, pointed, adds_at};

use indexmap::IndexMap;
use kp_base::{Effect, Memory, Row};
use std::alloc::Global;

/// Adds of an action, under the numbers of their atoms.
#[derive(Drop)]
pub struct Adds<'e> {
    by_atom: IndexMap<u32, Row<&'e Effect>>,
}

impl<'e> Adds<'e> {
    fn new(alloc: Global) -> Adds<'e>
        ensures { (n : ℕ) → adds_at result n ≡ [] }
    {
        Adds {
            by_atom: IndexMap::new(alloc),
        }
    }

    // Adds an effect under its atom.
    fn push(&mut self, alloc: Global, effect: &'e Effect) -> Result<(), Memory>
        ensures { OnOk result ((n : ℕ) → adds_at self.new n ≡ adds_at self.old n ++ only_if (nat_eq effect.now.result.atom.0 n) (effect.now ∷ [])) }
    {
        let atom = effect.result.atom.0;
        let mut adds = match self.by_atom.swap_remove(&atom) {
            Some(adds) => adds,
            None => Row::new(alloc),
        };
        adds.push(effect)?;
        self.by_atom.insert(atom, adds)?;
        Ok(())
    }

    // Adds an effect, if it is an add.
    fn note(&mut self, alloc: Global, effect: &'e Effect) -> Result<(), Memory>
        ensures { OnOk result ((n : ℕ) → adds_at self.new n ≡ adds_at self.old n ++ adds_of (effect.now ∷ []) n) }
    {
        if effect.result.positive {
            self.push(alloc, effect)?;
        }
        Ok(())
    }

    /// The adds among some effects.
    pub fn of(alloc: Global, effects: &'e [Effect]) -> Result<Adds<'e>, Memory>
        ensures { IfOk result (λ adds. (n : ℕ) → adds_at adds n ≡ adds_of effects.now n) }
    {
        let mut adds = Adds::new(alloc);
        for effect in effects {
            adds.note(alloc, effect)?;
        }
        Ok(adds)
    }

    /// The adds of an atom, if there are any.
    pub fn of_atom(&self, atom: u32) -> Option<&Row<&'e Effect>>
        ensures { pointed (option_copied result) ≡ adds_at self.now atom }
    {
        self.by_atom.get(&atom)
    }
}
