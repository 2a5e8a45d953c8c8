ghost use Rattle.std.specs.Prelude.{◌≡◌, ℕ, cond, [], ◌∷◌, ◌++◌, Some, length, nat_eq, MatchOption, IfOk, OnOk, OnErr};
ghost use Rattle.indexmap.specs.IndexMap.{get};
ghost use Rattle.kp_base.specs.Lit.{code_of};
ghost use Rattle.kp_ground.specs.Made.{with_made};
ghost use Rattle.kp_ground.specs.Ascents.{beside_last};

use indexmap::IndexMap;
use kp_base::{Effect, Memory, Row};
use std::alloc::Global;
use std::cmp::Ordering;
use std::marker::Model;

/// Effects, each once, of which those with one result come by ascending conditions. So an effect whose condition is
/// above the last one of its result is new.
#[derive(Drop)]
pub struct Rising {
    effects: Vec<Effect>,
    last: IndexMap<u64, usize>,
}

impl Model for Rising {
    ghost use Rattle.std.specs.Prelude.{List, nat_eq};
    ghost use Rattle.indexmap.specs.IndexMap.{get};
    ghost use Rattle.kp_base.specs.declared.ground.Effect.{Effect as ByNumber};
    ghost use Rattle.kp_ground.specs.Ascents.{IsRising};

    ghost Value = { List ByNumber };

    ghost view = { λ r. r.effects.items };

    ghost invariant = { λ r. IsRising (get nat_eq r.last) r.effects.items };
}

// How the condition of an effect compares with the last one of its result; above, where there is none.
fn beside_last(effects: &[Effect], last: &IndexMap<u64, usize>, effect: &Effect) -> Ordering
    ensures { result ≡ beside_last (get nat_eq last.now (code_of effect.now.result)) effects.now effect.now }
{
    match last.get(&effect.result.code()) {
        Some(place) => match effects.get(*place) {
            Some(other) => effect.cond.cmp(&other.cond),
            None => Ordering::Less,
        },
        None => Ordering::Greater,
    }
}

// Adds an effect, and its place as the last one of its result.
fn push(
    effects: &mut Vec<Effect>,
    last: &mut IndexMap<u64, usize>,
    effect: Effect,
) -> Result<(), Memory>
    ensures effects { OnOk result (effects.new.items ≡ effects.old.items ++ effect ∷ []) }
    ensures last { OnOk result ((n : ℕ) → get nat_eq last.new n ≡ cond (nat_eq (code_of effect.result) n) (Some (length effects.old.items)) (get nat_eq last.old n)) }
    ensures same_effects { OnErr result (effects.new.items ≡ effects.old.items) }
    ensures same_last { OnErr result ((n : ℕ) → get nat_eq last.new n ≡ get nat_eq last.old n) }
{
    let place = effects.len();
    let code = effect.result.code();
    effects.push(effect)?;
    if let Err(_) = last.insert(code, place) {
        effects.truncate(place);
        return Err(Memory);
    }
    Ok(())
}

impl Rising {
    /// No effects.
    pub fn new(alloc: Global) -> Rising
        ensures { result ≡ [] }
    {
        Rising {
            effects: Vec::new(alloc),
            last: IndexMap::new(alloc),
        }
    }

    /// Adds an effect, if it isn't there yet; or gives it back, where its condition is below the last one of its result.
    pub fn add(&mut self, effect: Effect) -> Result<Option<Effect>, Memory>
        ensures ok { IfOk result (λ left. MatchOption left (self.new ≡ with_made self.old effect) (λ e. (e ≡ effect) × (self.new ≡ self.old))) }
        ensures err { OnErr result (self.new ≡ self.old) }
    {
        match beside_last(&self.effects, &self.last, &effect) {
            Ordering::Less => Ok(Some(effect)),
            Ordering::Equal => Ok(None),
            Ordering::Greater => {
                push(&mut self.effects, &mut self.last, effect)?;
                Ok(None)
            }
        }
    }

    /// The effects.
    pub fn into_row(self) -> Row<Effect>
        ensures { result ≡ self }
    {
        Row::from_vec(self.effects)
    }
}
