//! Trees as they lie in an arena. The owned trees of `kp_tree_grammar` have the same parts.

/// A name or a variable in lower case, and the byte at which its token begins.
#[derive(Clone, Copy)]
pub struct WordNode<'a> {
    /// The folded text of the token.
    pub text: &'a str,
    /// The first byte of the token, counted from 0.
    pub byte: u32,
}

/// A word of a typed list with the types that are written for it.
#[derive(Clone, Copy)]
pub struct TypedNode<'a> {
    /// The type, object or variable that is declared.
    pub word: WordNode<'a>,
    /// The written types, several for `either`, none where no type is written.
    pub kinds: &'a [WordNode<'a>],
}

/// A term of an atom or of an equality.
#[derive(Clone, Copy)]
pub enum TermNode<'a> {
    /// An object by its name.
    Name(WordNode<'a>),
    /// A variable.
    Variable(WordNode<'a>),
}

/// A predicate with its terms.
#[derive(Clone, Copy)]
pub struct AtomNode<'a> {
    /// The predicate.
    pub head: WordNode<'a>,
    /// The terms in order.
    pub terms: &'a [TermNode<'a>],
}

/// A condition: of a precondition, of a conditional effect, or a goal.
#[derive(Clone, Copy)]
pub enum CondNode<'a> {
    /// The conjunction of the parts; it always holds where there is none.
    All(&'a [CondNode<'a>]),
    /// An atom, or its negation where the flag is false.
    Atom(bool, AtomNode<'a>),
    /// An equality, or its negation where the flag is false.
    Same(bool, TermNode<'a>, TermNode<'a>),
}

/// An effect.
#[derive(Clone, Copy)]
pub enum EffNode<'a> {
    /// All the parts; it does nothing where there is none.
    All(&'a [EffNode<'a>]),
    /// An effect under a condition.
    When(CondNode<'a>, &'a EffNode<'a>),
    /// An effect for all objects of the variables' types.
    Each(&'a [TypedNode<'a>], &'a EffNode<'a>),
    /// An atom that is added, or deleted where the flag is false.
    Atom(bool, AtomNode<'a>),
}

/// An atom, or its negation.
#[derive(Clone, Copy)]
pub struct LitNode<'a> {
    /// False for a negation.
    pub positive: bool,
    /// The atom, whose terms are names.
    pub atom: AtomNode<'a>,
}

/// What `:init` states.
#[derive(Clone, Copy)]
pub enum ItemNode<'a> {
    /// The parts of an `and`.
    All(&'a [ItemNode<'a>]),
    /// A fact that holds, or that doesn't where the flag is false.
    Lit(bool, AtomNode<'a>),
    /// Exactly one of the literals holds. The word is `oneof` at its place.
    OneOf(WordNode<'a>, &'a [LitNode<'a>]),
    /// Some of the literals hold. The word is `or` at its place.
    AnyOf(WordNode<'a>, &'a [LitNode<'a>]),
    /// Nothing is stated of the fact. The word is `unknown` at its place.
    Unknown(WordNode<'a>, AtomNode<'a>),
}

/// The declaration of a predicate.
#[derive(Clone, Copy)]
pub struct PredNode<'a> {
    /// The predicate.
    pub head: WordNode<'a>,
    /// Its parameters with their types.
    pub params: &'a [TypedNode<'a>],
}

/// An action schema.
#[derive(Clone, Copy)]
pub struct SchemaNode<'a> {
    /// The name of the action.
    pub name: WordNode<'a>,
    /// Its parameters with their types.
    pub params: &'a [TypedNode<'a>],
    /// Its precondition, `All` of no parts where none is written.
    pub pre: CondNode<'a>,
    /// Its effect, `All` of no parts where none is written.
    pub effect: EffNode<'a>,
}

/// A domain: what its sections declare, in the order of the file.
#[derive(Clone, Copy)]
pub struct DomainNode<'a> {
    /// The declared types with their parents.
    pub kinds: &'a [TypedNode<'a>],
    /// The objects that every problem of the domain has.
    pub constants: &'a [TypedNode<'a>],
    /// The declared predicates.
    pub predicates: &'a [PredNode<'a>],
    /// The action schemas.
    pub schemas: &'a [SchemaNode<'a>],
}

/// A problem: what its sections state, in the order of the file.
#[derive(Clone, Copy)]
pub struct ProblemNode<'a> {
    /// The objects.
    pub objects: &'a [TypedNode<'a>],
    /// What is stated of the initial state.
    pub init: &'a [ItemNode<'a>],
    /// The goal.
    pub goal: CondNode<'a>,
}
