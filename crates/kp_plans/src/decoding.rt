ghost use Rattle.std.specs.Prelude.{◌≡◌, ◌++◌, ◌∷◌, [], false, IfOk, OnOk, ◌<◌, length};
ghost use Rattle.std.specs.List.{list_any};
ghost use Rattle.kp_names_semantics.specs.Encoding.{split, name_of, decoded, is_empty};
ghost use Rattle.kp_plans.specs.Decoding.{components, Takes};
ghost use Rattle.kp_plans.specs.Names.{IsNameOf};

use kp_base::{GroundName, Memory, Row, Text};
use std::alloc::Global;
use std::mem;

/// The components of a word, as far as it is read.
#[derive(Drop)]
pub struct Parts {
    /// Those that have ended.
    ended: Row<Text>,
    /// The one that goes on.
    last: Text,
    /// Whether the byte read last is an underscore that says what the next one means.
    escaped: bool,
}

impl Parts {
    // Nothing is read.
    fn new(alloc: Global) -> Parts
        ensures ended { result.ended ≡ [] }
        ensures last { result.last ≡ [] }
        ensures escaped { result.escaped ≡ false }
    {
        Parts {
            ended: Row::new(alloc),
            last: Text::new(alloc),
            escaped: false,
        }
    }

    // Ends the component that goes on.
    fn end(&mut self, alloc: Global) -> Result<(), Memory>
        ensures ended { OnOk result (self.new.ended ≡ self.old.ended ++ self.old.last ∷ []) }
        ensures last { OnOk result (self.new.last ≡ []) }
        ensures escaped { OnOk result (self.new.escaped ≡ false) }
    {
        let last = mem::replace(&mut self.last, Text::new(alloc));
        self.escaped = false;
        self.ended.push(last)
    }

    // Reads the next byte, if a component goes on with it: tells whether one does.
    fn take(&mut self, alloc: Global, byte: u8) -> Result<bool, Memory>
        ensures { IfOk result (λ goes_on. Takes self.old self.new byte goes_on) }
    {
        match (self.escaped, byte) {
            (false, b'_') => self.escaped = true,
            (false, _) => self.last.push(byte)?,
            (true, b'_') => {
                self.last.push(byte)?;
                self.escaped = false;
            }
            (true, b'-') => self.end(alloc)?,
            (true, _) => return Ok(false),
        }
        Ok(true)
    }

    // The components of a word that is read to its end; none where an underscore stands there.
    fn finish(self) -> Result<Option<Row<Text>>, Memory>
        ensures { IfOk result (λ parts. parts ≡ components self []) }
    {
        if self.escaped {
            return Ok(None);
        }
        let mut parts = self.ended;
        parts.push(self.last)?;
        Ok(Some(parts))
    }
}

// The components of a word.
fn split(alloc: Global, word: &[u8]) -> Result<Option<Row<Text>>, Memory>
    ensures { IfOk result (λ parts. parts ≡ split word.now) }
{
    let mut parts = Parts::new(alloc);
    for byte in word {
        if !parts.take(alloc, *byte)? {
            return Ok(None);
        }
    }
    parts.finish()
}

// Whether a component is empty.
fn has_empty(parts: &[Text]) -> bool
    ensures { result ≡ list_any is_empty parts.now }
{
    parts.iter().any(|part| part.len() == 0)
}

// The first component is the head, the others are objects.
fn named(mut parts: Vec<Text>) -> GroundName
    requires { 0 < length parts.items }
    ensures { result.head ∷ result.objects ≡ parts.items }
{
    let head = parts.remove(0);
    GroundName {
        head,
        objects: Row::from_vec(parts),
    }
}

// The name with these components, if there are any and none is empty.
fn name_of(parts: Row<Text>) -> Option<GroundName>
    ensures { result ≡ name_of parts }
{
    if parts.len() == 0 || has_empty(parts.slice()) {
        return None;
    }
    Some(named(parts.into_vec()))
}

/// The name that a word stands for.
pub fn decode(alloc: Global, word: &[u8]) -> Result<Option<GroundName>, Memory>
    ensures { IfOk result (λ found. found ≡ decoded word.now) }
{
    match split(alloc, word)? {
        Some(parts) => Ok(name_of(parts)),
        None => Ok(None),
    }
}

/// The name that a word is the encoding of: one at most, and none where the word is no encoded name.
pub fn decode_name(alloc: Global, word: &Text) -> Result<Option<GroundName>, Memory>
    ensures value { IfOk result (λ found. found ≡ decoded word.now) }
    ensures exact { IfOk result (λ found. IsNameOf word.now found) }
{
    decode(alloc, word.slice())
}
