ghost use Rattle.std.specs.Prelude.{◌≡◌, ◌++◌, ◌∷◌, [], length, map, take, IfOk, OnOk};
ghost use Rattle.kp_ground_flatten.specs.Literals.{lit_view};

use crate::literal::{BoundLit, all_owned};
use kp_base::{Memory, Row};
use kp_names_semantics::GroundLit;
use smallvec::SmallVec;
use std::alloc::Global;
use std::marker::Model;

/// The conditions round a place of an effect, from the outermost on.
#[derive(Drop)]
pub struct Conditions<'a> {
    literals: SmallVec<BoundLit<'a>, 4>,
}

impl<'a> Model for Conditions<'a> {
    ghost use Rattle.std.specs.Prelude.{List, map};
    ghost use Rattle.kp_names_semantics.specs.declared.lifted.GroundLit.{GroundLit as Literal};
    ghost use Rattle.kp_ground_flatten.specs.Literals.{lit_view};

    ghost Value = { List Literal };

    ghost view = { λ c. map lit_view c.literals.items };
}

impl<'a> Conditions<'a> {
    /// No conditions.
    pub fn new(alloc: Global) -> Conditions<'a>
        ensures { result ≡ [] }
    {
        Conditions {
            literals: SmallVec::new(alloc),
        }
    }

    /// How many there are.
    pub fn len(&self) -> usize
        ensures { result ≡ length self.now }
    {
        self.literals.len()
    }

    /// Adds an innermost one.
    pub fn push(&mut self, literal: BoundLit<'a>) -> Result<(), Memory>
        ensures { OnOk result (self.new ≡ self.old ++ lit_view literal.entry ∷ []) }
    {
        self.literals.push(literal)?;
        Ok(())
    }

    /// Takes the inner ones away, so that this many stay.
    pub fn truncate(&mut self, len: usize)
        ensures { self.new ≡ take len self.old }
    {
        self.literals.truncate(len);
    }

    /// The literals, from the outermost on.
    pub fn slice(&self) -> &[BoundLit<'a>]
        ensures { map lit_view result.now ≡ self.now }
    {
        self.literals.as_slice()
    }

    /// Copies of the literals, with objects of their own.
    pub fn owned(&self, alloc: Global) -> Result<Row<GroundLit>, Memory>
        ensures { IfOk result (λ row. row ≡ self.now) }
    {
        let row = all_owned(alloc, self.slice())?;
        Ok(row)
    }
}
