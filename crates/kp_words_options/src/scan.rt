ghost use Rattle.std.specs.Prelude.{◌≡◌, ◌≤◌, ◌<◌, ◌+◌, ◌^◌, ◌&&◌, Some, None, not, IfOk, option_map, true, false, Ok};
ghost use Rattle.clap.specs.Lexer.{strip_byte, name_and_value, long_of};
ghost use Rattle.kp_words_options.specs.Words.{is_plain, has_text};
ghost use Rattle.kp_words_options.specs.Texts.{texts};
ghost use Rattle.kp_words_options.specs.Scan.{reader_state, has_value, may_stand, after_word, after_option, scan, at_first};

use kp_base::Memory;
use std::alloc::Global;

// Whether a word may stand for itself: it isn't empty and doesn't begin with a dash.
pub(crate) fn is_plain(word: &str) -> bool
    ensures { result ≡ is_plain word.now }
{
    match word.as_bytes().first() {
        Some(first) => *first != b'-',
        None => false,
    }
}

// What follows a first dash.
fn strip_dash(word: &str) -> Option<&str>
    ensures { option_map (λ s. s.now) result ≡ strip_byte 45 word.now }
{
    word.strip_prefix('-')
}

// What stands before the first `=`, and what stands after it if there is one.
fn split_value(text: &str) -> (&str, Option<&str>)
    ensures { (result.0.now, option_map (λ s. s.now) result.1) ≡ name_and_value text.now }
{
    match text.split_once('=') {
        Some((name, value)) => (name, Some(value)),
        None => (text, None),
    }
}

// `--name` or `--name=value`, as the name and the value.
fn option_of(word: &str) -> Option<(&str, Option<&str>)>
    ensures { option_map (λ p. (p.0.now, option_map (λ s. s.now) p.1)) result ≡ long_of word.now }
{
    let rest = strip_dash(strip_dash(word)?)?;
    if rest.is_empty() {
        return None;
    }
    Some(split_value(rest))
}

// Whether a text is one of these.
fn is_among(all: &[&str], text: &str) -> bool
    ensures { result ≡ has_text (texts all.now) text.now }
{
    for one in all {
        if *one == text {
            return true;
        }
    }
    false
}

// Which options were met, whether the last one waits for its value, and how many positional words
// there were.
#[derive(Drop)]
pub(crate) struct Reader<'a> {
    seen: Vec<&'a str>,
    waits: bool,
    places: usize,
}

// Whether what is said with an option may be its value.
fn has_value(value: Option<&str>) -> bool
    ensures { result ≡ has_value (option_map (λ s. s.now) value.entry) }
{
    match value {
        Some(value) => is_plain(value),
        None => true,
    }
}

impl<'a> Reader<'a> {
    // Whether an option may stand here.
    fn may_stand(&self, options: &[&str], name: &str) -> bool
        ensures { result ≡ may_stand (texts options.now) (reader_state self.now) name.now }
    {
        is_among(options, name) && !is_among(self.seen.as_slice(), name)
    }

    // Reads an option. `false` says that it may not stand here.
    fn read_option(&mut self, options: &[&str], word: &'a str) -> Result<bool, Memory>
        ensures yes { result ≡ Ok true → after_option (texts options.now) (reader_state self.old) (long_of word.now) ≡ Some (reader_state self.new) }
        ensures no { result ≡ Ok false → after_option (texts options.now) (reader_state self.old) (long_of word.now) ≡ None }
        ensures places { self.new.places ≡ self.old.places }
    {
        let Some((name, value)) = option_of(word) else {
            return Ok(false);
        };
        if !self.may_stand(options, name) || !has_value(value) {
            return Ok(false);
        }
        self.seen.push(name)?;
        self.waits = value.is_none();
        Ok(true)
    }

    // Reads a word. `false` says that it may not stand here.
    fn read(&mut self, options: &[&str], word: &'a str) -> Result<bool, Memory>
        requires { self.old.places + 1 < 2 ^ 64 }
        ensures yes { result ≡ Ok true → after_word (texts options.now) (reader_state self.old) word.now ≡ Some (reader_state self.new) }
        ensures no { result ≡ Ok false → after_word (texts options.now) (reader_state self.old) word.now ≡ None }
        ensures places { self.new.places ≤ self.old.places + 1 }
    {
        if is_plain(word) {
            if self.waits {
                self.waits = false;
            } else {
                self.places += 1;
            }
            return Ok(true);
        }
        if self.waits {
            return Ok(false);
        }
        self.read_option(options, word)
    }
}

// How many positional words there are, where each option is one of these and stands once.
pub(crate) fn count_places(
    alloc: Global,
    options: &[&str],
    words: &[&str],
) -> Result<Option<usize>, Memory>
    ensures { IfOk result (λ r. r ≡ scan (texts options.now) at_first (texts words.now)) }
{
    let mut reader = Reader {
        seen: Vec::new(alloc),
        waits: false,
        places: 0,
    };
    for word in words {
        if !reader.read(options, word)? {
            return Ok(None);
        }
    }
    if reader.waits {
        return Ok(None);
    }
    Ok(Some(reader.places))
}
