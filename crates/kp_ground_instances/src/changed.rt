ghost use Rattle.std.specs.Prelude.{◌≡◌, ◌==◌, not, ℕ, IfOk, OnOk};
ghost use Rattle.std.specs.List.{list_any};
ghost use Rattle.kp_names.specs.View.{eff_view, lifted_view};
ghost use Rattle.kp_ground_semantics.specs.Static.{changes, leaves_static, is_static};
ghost use Rattle.kp_ground_instances.specs.StaticTables.{has_number, AddsNumbers};

use indexmap::IndexSet;
use kp_base::Memory;
use kp_names::{Eff, Lifted, Schema};
use kp_names_semantics::{GroundLit, Item};
use std::alloc::Global;

fn add(preds: &mut IndexSet<u32>, pred: u32) -> Result<(), Memory>
    ensures { OnOk result (AddsNumbers preds.old.keys preds.new.keys (λ q. pred == q)) }
{
    preds.insert(pred)?;
    Ok(())
}

// Adds the predicates that an effect names.
fn add_effect(preds: &mut IndexSet<u32>, effect: &Eff) -> Result<(), Memory>
    ensures { OnOk result (AddsNumbers preds.old.keys preds.new.keys (λ q. changes q (eff_view effect.now))) }
{
    match effect {
        Eff::All(parts) => {
            for part in parts.slice() {
                add_effect(preds, part)?;
            }
            Ok(())
        }
        Eff::When(_, body) => add_effect(preds, body),
        Eff::Each(_, body) => add_effect(preds, body),
        Eff::Atom { pred, .. } => add(preds, *pred),
    }
}

fn add_schemas(preds: &mut IndexSet<u32>, schemas: &[Schema]) -> Result<(), Memory>
    ensures { OnOk result (AddsNumbers preds.old.keys preds.new.keys (λ q. list_any (λ a. changes q (eff_view a.effect)) schemas.now)) }
{
    for schema in schemas {
        add_effect(preds, &schema.effect)?;
    }
    Ok(())
}

fn add_literals(preds: &mut IndexSet<u32>, literals: &[GroundLit]) -> Result<(), Memory>
    ensures { OnOk result (AddsNumbers preds.old.keys preds.new.keys (λ q. list_any (λ l. l.pred == q) literals.now)) }
{
    for literal in literals {
        add(preds, literal.pred)?;
    }
    Ok(())
}

// Adds the predicates of an item, unless it is one of their atoms.
fn add_item(preds: &mut IndexSet<u32>, item: &Item) -> Result<(), Memory>
    ensures { OnOk result (AddsNumbers preds.old.keys preds.new.keys (λ q. not (leaves_static q item.now))) }
{
    match item {
        Item::One(literal) => {
            if literal.positive {
                return Ok(());
            }
            add(preds, literal.pred)
        }
        Item::OneOf(literals) => add_literals(preds, literals.slice()),
        Item::AnyOf(literals) => add_literals(preds, literals.slice()),
        Item::Unknown(literal) => add(preds, literal.pred),
    }
}

fn add_items(preds: &mut IndexSet<u32>, items: &[Item]) -> Result<(), Memory>
    ensures { OnOk result (AddsNumbers preds.old.keys preds.new.keys (λ q. list_any (λ i. not (leaves_static q i)) items.now)) }
{
    for item in items {
        add_item(preds, item)?;
    }
    Ok(())
}

/// The predicates that aren't static.
pub fn changed_predicates(alloc: Global, lifted: &Lifted) -> Result<IndexSet<u32>, Memory>
    ensures { IfOk result (λ preds. (q : ℕ) → has_number preds.keys q ≡ not (is_static (lifted_view lifted.now) q)) }
{
    let mut preds = IndexSet::new(alloc);
    add_schemas(&mut preds, lifted.schemas.slice())?;
    add_items(&mut preds, lifted.init.slice())?;
    Ok(preds)
}
