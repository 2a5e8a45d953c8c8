use kp_base::{Row, Text};

/// A name or a variable in lower case, and the byte at which its token begins.
#[derive(Drop)]
pub struct Word {
    /// The folded text of the token.
    pub text: Text,
    /// The first byte of the token, counted from 0.
    pub byte: u32,
}

/// A word of a typed list with the types that are written for it.
#[derive(Drop)]
pub struct Typed {
    /// The type, object or variable that is declared.
    pub word: Word,
    /// The written types, several for `either`, none where no type is written.
    pub kinds: Row<Word>,
}

/// A term of an atom or of an equality.
#[derive(Drop)]
pub enum TermTree {
    /// An object by its name.
    Name(Word),
    /// A variable.
    Variable(Word),
}

/// A predicate with its terms.
#[derive(Drop)]
pub struct AtomTree {
    /// The predicate.
    pub head: Word,
    /// The terms in order.
    pub terms: Row<TermTree>,
}

/// A condition: of a precondition, of a conditional effect, or a goal.
#[derive(Drop)]
pub enum CondTree {
    /// The conjunction of the parts; it always holds where there is none.
    All(Row<CondTree>),
    /// An atom, or its negation where the flag is false.
    Atom(bool, AtomTree),
    /// An equality, or its negation where the flag is false.
    Same(bool, TermTree, TermTree),
}

/// An effect.
#[derive(Drop)]
pub enum EffTree {
    /// All the parts; it does nothing where there is none.
    All(Row<EffTree>),
    /// An effect under a condition.
    When(CondTree, Box<EffTree>),
    /// An effect for all objects of the variables' types.
    Each(Row<Typed>, Box<EffTree>),
    /// An atom that is added, or deleted where the flag is false.
    Atom(bool, AtomTree),
}

/// An atom, or its negation.
#[derive(Drop)]
pub struct LitTree {
    /// False for a negation.
    pub positive: bool,
    /// The atom, whose terms are names.
    pub atom: AtomTree,
}

/// What `:init` states.
#[derive(Drop)]
pub enum ItemTree {
    /// The parts of an `and`.
    All(Row<ItemTree>),
    /// A fact that holds, or that doesn't where the flag is false.
    Lit(bool, AtomTree),
    /// Exactly one of the literals holds. The word is `oneof` at its place.
    OneOf(Word, Row<LitTree>),
    /// Some of the literals hold. The word is `or` at its place.
    AnyOf(Word, Row<LitTree>),
    /// Nothing is stated of the fact. The word is `unknown` at its place.
    Unknown(Word, AtomTree),
}

/// The declaration of a predicate.
#[derive(Drop)]
pub struct PredTree {
    /// The predicate.
    pub head: Word,
    /// Its parameters with their types.
    pub params: Row<Typed>,
}

/// An action schema.
#[derive(Drop)]
pub struct SchemaTree {
    /// The name of the action.
    pub name: Word,
    /// Its parameters with their types.
    pub params: Row<Typed>,
    /// Its precondition, `All` of no parts where none is written.
    pub pre: CondTree,
    /// Its effect, `All` of no parts where none is written.
    pub effect: EffTree,
}

/// A domain: what its sections declare, in the order of the file.
#[derive(Drop)]
pub struct Domain {
    /// The declared types with their parents.
    pub kinds: Row<Typed>,
    /// The objects that every problem of the domain has.
    pub constants: Row<Typed>,
    /// The declared predicates.
    pub predicates: Row<PredTree>,
    /// The action schemas.
    pub schemas: Row<SchemaTree>,
}

/// A problem: what its sections state, in the order of the file.
#[derive(Drop)]
pub struct Problem {
    /// The objects.
    pub objects: Row<Typed>,
    /// What is stated of the initial state.
    pub init: Row<ItemTree>,
    /// The goal.
    pub goal: CondTree,
}
