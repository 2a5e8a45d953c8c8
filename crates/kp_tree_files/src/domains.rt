ghost use Rattle.std.specs.Prelude.{◌≡◌, ◌++◌, map, OnOk};
ghost use Rattle.kp_tree_grammar.specs.Trees.{section_types, section_constants, section_predicates, section_schemas};
ghost use Rattle.kp_tree_arena.specs.Nodes.{typed_view, pred_view, schema_view};
ghost use Rattle.kp_tree_files.specs.Parts.{section_view};

use bumpalo::Bump;
use bumpalo::collections::into_bump_slice;
use kp_base::Memory;
use kp_tree_arena::{DomainNode, PredNode, SchemaNode, TypedNode};
use kp_tree_parts::{add, append};

/// A section of a domain.
#[derive(Drop)]
pub enum DomainPart<'a> {
    /// Requirements, which aren't kept.
    Requirements,
    /// Types with their parents.
    Types(Vec<TypedNode<'a>, &'a Bump>),
    /// Constants with their types.
    Constants(Vec<TypedNode<'a>, &'a Bump>),
    /// The declared predicates.
    Predicates(Vec<PredNode<'a>, &'a Bump>),
    /// An action.
    Action(SchemaNode<'a>),
}

/// What the sections of a domain that stood so far declare.
#[derive(Drop)]
pub struct Declared<'a> {
    /// The types.
    pub kinds: Vec<TypedNode<'a>, &'a Bump>,
    /// The constants.
    pub constants: Vec<TypedNode<'a>, &'a Bump>,
    /// The predicates.
    pub predicates: Vec<PredNode<'a>, &'a Bump>,
    /// The actions.
    pub schemas: Vec<SchemaNode<'a>, &'a Bump>,
}

/// Adds what a section declares.
pub fn keep_section<'a>(declared: &mut Declared<'a>, part: DomainPart<'a>) -> Result<(), Memory>
    ensures kinds { OnOk result (map typed_view declared.new.kinds.items ≡ map typed_view declared.old.kinds.items ++ section_types (section_view part.entry)) }
    ensures constants { OnOk result (map typed_view declared.new.constants.items ≡ map typed_view declared.old.constants.items ++ section_constants (section_view part.entry)) }
    ensures predicates { OnOk result (map pred_view declared.new.predicates.items ≡ map pred_view declared.old.predicates.items ++ section_predicates (section_view part.entry)) }
    ensures schemas { OnOk result (map schema_view declared.new.schemas.items ≡ map schema_view declared.old.schemas.items ++ section_schemas (section_view part.entry)) }
{
    match part {
        DomainPart::Requirements => Ok(()),
        DomainPart::Types(kinds) => append(&mut declared.kinds, kinds),
        DomainPart::Constants(constants) => append(&mut declared.constants, constants),
        DomainPart::Predicates(predicates) => append(&mut declared.predicates, predicates),
        DomainPart::Action(schema) => add(&mut declared.schemas, schema),
    }
}

/// The domain of all that is declared.
pub fn as_domain<'a>(declared: Declared<'a>) -> DomainNode<'a>
    ensures kinds { result.kinds.now ≡ declared.entry.kinds.items }
    ensures constants { result.constants.now ≡ declared.entry.constants.items }
    ensures predicates { result.predicates.now ≡ declared.entry.predicates.items }
    ensures schemas { result.schemas.now ≡ declared.entry.schemas.items }
{
    DomainNode {
        kinds: into_bump_slice(declared.kinds),
        constants: into_bump_slice(declared.constants),
        predicates: into_bump_slice(declared.predicates),
        schemas: into_bump_slice(declared.schemas),
    }
}
