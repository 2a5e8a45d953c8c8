/// The kinds of tokens.
#[derive(Clone, Copy, Debug, PartialEq, Eq)]
pub enum TokenKind {
    /// An opening bracket.
    Left,
    /// A closing bracket.
    Right,
    /// A `-` with which a token begins.
    Dash,
    /// An equals sign.
    Equal,
    /// A letter or digit, and the letters, digits, `-` and `_` behind it.
    Name,
    /// `?` and a name.
    Variable,
    /// `:` and a name.
    Keyword,
}

/// A token of a text: its kind, and the span of its bytes.
#[derive(Clone, Copy, Debug, PartialEq, Eq)]
pub struct Token {
    /// What it is.
    pub kind: TokenKind,
    /// The first byte, counted from 0.
    pub from: u32,
    /// The byte behind the last one.
    pub to: u32,
}
