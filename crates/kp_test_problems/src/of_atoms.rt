//! Whether a ground problem speaks of its own atoms alone, as calls on ground problems ask.
ghost use Rattle.std.specs.Prelude.{◌≡◌, ◌&&◌, ◌<◌, ◌↔◌, IsTrue, length};
ghost use Rattle.std.specs.List.{list_all};
ghost use Rattle.kp_base.specs.Implicates.{are_below, effect_below, action_below, IsOfItsAtoms};

use kp_base::{Action, Effect, Ground, LitSet};

fn is_below(set: &LitSet, atoms: usize) -> bool
    ensures { result ≡ are_below atoms set.now }
{
    set.slice().iter().all(|l| (l.atom.0 as usize) < atoms)
}

fn is_effect_below(effect: &Effect, atoms: usize) -> bool
    ensures { result ≡ effect_below atoms effect.now }
{
    (effect.result.atom.0 as usize) < atoms && is_below(&effect.cond, atoms)
}

fn are_effects_below(effects: &[Effect], atoms: usize) -> bool
    ensures { result ≡ list_all (effect_below atoms) effects.now }
{
    effects.iter().all(|effect| is_effect_below(effect, atoms))
}

fn is_action_below(action: &Action, atoms: usize) -> bool
    ensures { result ≡ action_below atoms action.now }
{
    is_below(&action.pre, atoms) && are_effects_below(action.effects.slice(), atoms)
}

fn are_actions_below(actions: &[Action], atoms: usize) -> bool
    ensures { result ≡ list_all (action_below atoms) actions.now }
{
    actions.iter().all(|action| is_action_below(action, atoms))
}

fn are_literals_below(ground: &Ground) -> bool
    ensures { result ≡ (list_all (action_below (length ground.now.atoms)) ground.now.actions && are_below (length ground.now.atoms) ground.now.goal) }
{
    are_actions_below(ground.actions.slice(), ground.atoms.len())
        && is_below(&ground.goal, ground.atoms.len())
}

/// Whether all literals of the problem are of its atoms.
pub fn is_of_its_atoms(ground: &Ground) -> bool
    ensures { IsTrue result ↔ IsOfItsAtoms ground.now }
{
    ground.atoms.len() < 2_147_483_648
        && ground.actions.len() < 2_147_483_648
        && are_literals_below(ground)
}
