ghost use Rattle.std.specs.Prelude.{◌≡◌, ◌<◌, ◌≤◌, ◌+◌, Err, drop, length, IfOk, IfErr};
ghost use Rattle.std.specs.List.{prefix_len, take_while};
ghost use Rattle.kp_tree_grammar.specs.Reading.{stop};
ghost use Rattle.kp_tree_cursor.specs.Lexemes.{from};
ghost use Rattle.kp_tree_cursor.specs.Readers.{Passes, Words, is_of, some_at, keywords_at};

use crate::cursor::{Class, begins};
use crate::halt::Halt;
use crate::tokens::Tokens;

// The place behind the tokens of the class, up to the first that isn't.
fn run_end(tokens: &Tokens, start: usize, class: Class) -> usize
    requires { start ≤ length tokens.now }
    ensures count { result ≡ start + prefix_len (is_of class) (drop start tokens.now) }
    ensures onward { (start ≤ result) × (result ≤ length tokens.now) }
    ensures few { length tokens.now < 9223372036854775808 }
{
    let mut end = start;
    'more: while begins(tokens, end, class) {
        end += 1;
    }
    end
}

/// The tokens from a place on that are of the class, up to the first that isn't.
pub fn run<'t, 'a>(tokens: &Tokens<'t, 'a>, at: usize, class: Class) -> Tokens<'t, 'a>
    requires { at ≤ length tokens.now }
    ensures longest { result ≡ take_while (is_of class) (drop at tokens.now) }
    ensures within { at + length result ≤ length tokens.now }
    ensures few { length tokens.now < 9223372036854775808 }
{
    tokens.part(at, run_end(tokens, at, class))
}

/// One or more words of a class, as many as stand there.
pub fn words<'t, 'a>(
    tokens: &Tokens<'t, 'a>,
    at: usize,
    class: Class,
) -> Result<Tokens<'t, 'a>, Halt>
    requires { at ≤ length tokens.now }
    ensures found { IfOk result (λ run. Words class tokens.now at run) }
    ensures stopped { IfErr result (λ e. (e ≡ Halt.Syntax at) × (some_at class (from tokens.now at) ≡ Err (stop (from tokens.now at)))) }
    ensures onward { IfOk result (λ run. (0 < length run) × (at + length run ≤ length tokens.now)) }
    ensures few { length tokens.now < 9223372036854775808 }
{
    let run = run(tokens, at, class);
    if run.is_empty() {
        Err(Halt::Syntax(at))
    } else {
        Ok(run)
    }
}

/// The place behind keywords, which aren't kept.
pub fn skip_keywords(tokens: &Tokens, at: usize) -> Result<usize, Halt>
    requires { at ≤ length tokens.now }
    ensures reads { Passes tokens.now result (keywords_at (from tokens.now at)) }
    ensures onward { IfOk result (λ n. (at ≤ n) × (n ≤ length tokens.now)) }
{
    Ok(at + run(tokens, at, Class::Keyword).len())
}
