ghost use Rattle.std.specs.Prelude.{◌≡◌, [], map, IfOk, OnOk};
ghost use Rattle.kp_ground_flatten.specs.Literals.{lit_view};
ghost use Rattle.kp_ground_flatten.specs.Shapes.{IsShapeOf, with_effect};

use crate::literal::{BoundLit, all_owned, owned};
use crate::shape::{Shape, shape_of};
use crate::sink::Sink;
use indexmap::IndexSet;
use kp_base::{Memory, Row};
use kp_ground_semantics::FlatEffect;
use std::alloc::Global;
use std::marker::Model;

/// Effects, each once, in the order in which they came first.
#[derive(Drop)]
pub struct Effects {
    rows: Vec<FlatEffect>,
    seen: IndexSet<Shape>,
}

impl Model for Effects {
    ghost use Rattle.std.specs.Prelude.{List};
    ghost use Rattle.kp_ground_semantics.specs.declared.flat.FlatEffect.{FlatEffect as Effect};
    ghost use Rattle.kp_ground_flatten.specs.Shapes.{AreShapes};

    ghost Value = { List Effect };

    ghost view = { λ e. e.rows.items };

    ghost invariant = { λ e. AreShapes e.seen.keys e.rows.items };
}

// The effect that makes a literal under these conditions.
fn effect_of(alloc: Global, conds: &[BoundLit], made: &BoundLit) -> Result<FlatEffect, Memory>
    ensures { IfOk result (λ e. e ≡ record { cond = map lit_view conds.now; result = lit_view made.now }) }
{
    Ok(FlatEffect {
        cond: all_owned(alloc, conds)?,
        result: owned(alloc, made)?,
    })
}

impl Effects {
    /// No effects.
    pub fn new(alloc: Global) -> Effects
        ensures { result ≡ [] }
    {
        Effects {
            rows: Vec::new(alloc),
            seen: IndexSet::new(alloc),
        }
    }

    // Adds an effect, if one of its shape isn't there yet.
    fn note(&mut self, shape: Shape, effect: FlatEffect) -> Result<(), Memory>
        requires { IsShapeOf shape effect }
        ensures { OnOk result (self.new ≡ with_effect self.old effect) }
    {
        let count = self.seen.len();
        if !self.seen.insert(shape)? {
            return Ok(());
        }
        if let Err(_) = self.rows.push(effect) {
            self.seen.truncate(count);
            return Err(Memory);
        }
        Ok(())
    }

    /// The effects.
    pub fn into_row(self) -> Row<FlatEffect>
        ensures { result ≡ self }
    {
        Row::from_vec(self.rows)
    }
}

impl Sink for Effects {
    ghost takes = { with_effect };

    // Adds the effect, if it isn't there yet.
    fn take(&mut self, alloc: Global, conds: &[BoundLit], made: &BoundLit) -> Result<(), Memory> {
        let shape = shape_of(alloc, conds, made)?;
        let effect = effect_of(alloc, conds, made)?;
        self.note(shape, effect)
    }
}
