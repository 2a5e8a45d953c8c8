use kp_tree_grammar::Symbol;

/// A token as the grammar sees it.
#[derive(Clone, Copy)]
pub struct Lexeme<'a> {
    /// Its text in lower case.
    pub text: &'a str,
    /// Its first byte, counted from 0.
    pub byte: u32,
    /// What it is.
    pub symbol: Symbol,
}
