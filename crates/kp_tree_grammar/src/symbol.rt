/// What a token is to the grammar: a sign, a word that the grammar knows, or any other word.
/// `specs/Symbols.antt` has the word of each.
#[derive(Clone, Copy, Debug, PartialEq, Eq)]
pub enum Symbol {
    /// `(`
    Left,
    /// `)`
    Right,
    /// `-`
    Dash,
    /// `=`
    Equal,
    Variable,
    And,
    Or,
    Not,
    Imply,
    Exists,
    Forall,
    When,
    OneOf,
    Unknown,
    Preference,
    Probabilistic,
    Increase,
    Decrease,
    Assign,
    ScaleUp,
    ScaleDown,
    Define,
    Domain,
    Problem,
    Either,
    Merge,
    /// Any other name.
    Name,
    Requirements,
    Types,
    Constants,
    Predicates,
    Action,
    Parameters,
    Precondition,
    Effect,
    /// `:domain`
    OfDomain,
    Objects,
    Init,
    Goal,
    Functions,
    Derived,
    Axiom,
    DurativeAction,
    Constraints,
    Process,
    Event,
    Observe,
    Vars,
    Metric,
    Length,
    /// Any other keyword.
    Keyword,
}
