ghost use Rattle.std.specs.Prelude.{◌≡◌};
ghost use Rattle.kp_lex.specs.Bytes.{class_of};

/// What a byte is to the cutting.
#[derive(Clone, Copy, Debug, PartialEq, Eq)]
pub(crate) enum Class {
    Alphanumeric,
    Left,
    Right,
    Dash,
    Equal,
    Question,
    Colon,
    Semicolon,
    Underscore,
    LineFeed,
    Blank,
    Other,
}

#[tactic(auto, unfolding(crate::specs::Bytes::class_of))]
pub(crate) fn classify(byte: u8) -> Class
    ensures { result ≡ class_of byte }
{
    match byte {
        b'0'..=b'9' | b'A'..=b'Z' | b'a'..=b'z' => Class::Alphanumeric,
        b'(' => Class::Left,
        b')' => Class::Right,
        b'-' => Class::Dash,
        b'=' => Class::Equal,
        b'?' => Class::Question,
        b':' => Class::Colon,
        b';' => Class::Semicolon,
        b'_' => Class::Underscore,
        b'\n' => Class::LineFeed,
        b' ' | b'\t' | b'\r' => Class::Blank,
        _ => Class::Other,
    }
}
