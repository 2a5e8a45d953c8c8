ghost use Rattle.std.specs.Prelude.{◌≡◌, [], map, fold, IfOk, OnOk};
ghost use Rattle.kp_base.specs.LitSet.{with_lit, set_of};
ghost use Rattle.kp_ground_semantics.specs.Ground.{numbered};
ghost use Rattle.kp_ground_flatten.specs.Literals.{lit_view};
ghost use Rattle.kp_ground.specs.Made.{with_made, made_effect};

use crate::made::Made;
use crate::rising::Rising;
use indexmap::IndexSet;
use kp_base::{AtomId, Atoms, Effect, Lit, LitSet, Memory, Recent, Row};
use kp_ground_flatten::{BoundLit, Sink};
use std::alloc::Global;
use std::marker::Model;
use std::mem::replace;

/// Effects by the numbers of their atoms, each once, in the order in which they came first.
#[derive(Drop)]
pub struct Numbering<'n> {
    atoms: &'n Atoms,
    recent: Recent,
    rising: Rising,
    made: IndexSet<Made>,
}

impl<'n> Model for Numbering<'n> {
    ghost use Rattle.std.specs.Prelude.{List, ◌++◌, map};
    ghost use Rattle.kp_base.specs.declared.ground.Effect.{Effect as ByNumber};
    ghost use Rattle.kp_base.specs.Atoms.{Atom};
    ghost use Rattle.kp_ground.specs.Made.{made_effect};
    ghost use Rattle.kp_ground.specs.Ascents.{AreApart};

    ghost Value = { List Atom × List ByNumber };

    ghost view = { λ n. (n.atoms.now, map made_effect n.made.keys ++ n.rising) };

    ghost invariant = { λ n. AreApart n.made.keys n.rising };
}

// A literal by the number of its atom.
fn by_number(atoms: &Atoms, recent: &mut Recent, lit: &BoundLit) -> Lit
    ensures { result ≡ numbered atoms.now (lit_view lit.now) }
{
    Lit {
        atom: AtomId(atoms.place_by(recent, lit.pred, lit.objects)),
        positive: lit.positive,
    }
}

// Adds a literal by the number of its atom.
fn add_by_number(
    atoms: &Atoms,
    recent: &mut Recent,
    lit: &BoundLit,
    set: &mut LitSet,
) -> Result<(), Memory>
    ensures { OnOk result (set.new ≡ with_lit (numbered atoms.now (lit_view lit.now)) set.old) }
{
    set.insert(by_number(atoms, recent, lit))
}

// Literals by the numbers of their atoms, as a set.
fn set_by_number(
    alloc: Global,
    atoms: &Atoms,
    recent: &mut Recent,
    lits: &[BoundLit],
) -> Result<LitSet, Memory>
    ensures { IfOk result (λ set. set ≡ set_of (map (λ l. numbered atoms.now (lit_view l)) lits.now)) }
{
    let mut set = LitSet::new(alloc);
    for lit in lits {
        add_by_number(atoms, recent, lit, &mut set)?;
    }
    Ok(set)
}

// Adds an effect to a set, if it isn't there yet.
fn put(set: &mut IndexSet<Made>, effect: Effect) -> Result<(), Memory>
    ensures { OnOk result (map made_effect set.new.keys ≡ with_made (map made_effect set.old.keys) effect) }
{
    set.insert(Made { effect })?;
    Ok(())
}

// Adds effects to a set, those that aren't there yet.
fn put_all(set: &mut IndexSet<Made>, effects: Row<Effect>) -> Result<(), Memory>
    ensures { OnOk result (map made_effect set.new.keys ≡ fold with_made (map made_effect set.old.keys) effects) }
{
    for effect in effects.into_vec() {
        put(set, effect)?;
    }
    Ok(())
}

// The effects of a set.
fn taken_out(alloc: Global, set: IndexSet<Made>) -> Result<Row<Effect>, Memory>
    ensures { IfOk result (λ row. row ≡ map made_effect set.keys) }
{
    let mut row = Vec::with_capacity(alloc, set.len())?;
    for made in set {
        row.push(made.effect)?;
    }
    Ok(Row::from_vec(row))
}

impl<'n> Numbering<'n> {
    /// No effects, on these atoms.
    pub fn new(alloc: Global, atoms: &'n Atoms) -> Numbering<'n>
        ensures { result ≡ (atoms.now, []) }
    {
        Numbering {
            atoms,
            recent: Recent::new(),
            rising: Rising::new(alloc),
            made: IndexSet::new(alloc),
        }
    }

    // Adds an effect, if it isn't there yet. From the first that doesn't rise on, all are in the set.
    fn add(&mut self, alloc: Global, effect: Effect) -> Result<(), Memory>
        ensures { OnOk result (self.new ≡ (self.old.0, with_made self.old.1 effect)) }
    {
        if !self.made.is_empty() {
            return put(&mut self.made, effect);
        }
        let Some(effect) = self.rising.add(effect)? else {
            return Ok(());
        };
        let rising = replace(&mut self.rising, Rising::new(alloc));
        put_all(&mut self.made, rising.into_row())?;
        put(&mut self.made, effect)
    }

    /// The effects.
    pub fn into_row(self, alloc: Global) -> Result<Row<Effect>, Memory>
        ensures { IfOk result (λ row. row ≡ self.entry.1) }
    {
        let Numbering { rising, made, .. } = self;
        if made.is_empty() {
            return Ok(rising.into_row());
        }
        taken_out(alloc, made)
    }
}

impl<'n> Sink for Numbering<'n> {
    ghost use Rattle.kp_ground_semantics.specs.Ground.{numbered_effect};

    ghost takes = { λ n f. (n.0, with_made n.1 (numbered_effect n.0 f)) };

    fn take(&mut self, alloc: Global, conds: &[BoundLit], made: &BoundLit) -> Result<(), Memory> {
        let effect = Effect {
            cond: set_by_number(alloc, self.atoms, &mut self.recent, conds)?,
            result: by_number(self.atoms, &mut self.recent, made),
        };
        self.add(alloc, effect)?;
        Ok(())
    }
}
