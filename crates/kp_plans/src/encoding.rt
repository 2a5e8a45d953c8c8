ghost use Rattle.std.specs.Prelude.{◌≡◌, ◌++◌, Some, IfOk, OnOk};
ghost use Rattle.kp_names_semantics.specs.Encoding.{doubled, doubled_byte, encoded, encoded_objects, decoded, HasNoEmptyPart};

use kp_base::{GroundName, Memory, Text};
use kp_plans_spelling::put;
use std::alloc::Global;

fn put_byte(out: &mut Vec<u8>, byte: u8) -> Result<(), Memory>
    ensures { OnOk result (out.new.items ≡ out.old.items ++ doubled_byte byte) }
{
    if byte == b'_' {
        put(out, b"__")?;
    } else {
        out.push(byte)?;
    }
    Ok(())
}

fn put_doubled(out: &mut Vec<u8>, text: &[u8]) -> Result<(), Memory>
    ensures { OnOk result (out.new.items ≡ out.old.items ++ doubled text.now) }
{
    for byte in text {
        put_byte(out, *byte)?;
    }
    Ok(())
}

fn put_objects(out: &mut Vec<u8>, objects: &[Text]) -> Result<(), Memory>
    ensures { OnOk result (out.new.items ≡ out.old.items ++ encoded_objects objects.now) }
{
    for object in objects {
        put(out, b"_-")?;
        put_doubled(out, object.slice())?;
    }
    Ok(())
}

/// Adds the name of an atom or an action as one word.
pub fn put_word(out: &mut Vec<u8>, name: &GroundName) -> Result<(), Memory>
    ensures { OnOk result (out.new.items ≡ out.old.items ++ encoded name.now) }
{
    put_doubled(out, name.head.slice())?;
    put_objects(out, name.objects.slice())?;
    Ok(())
}

// The name of an atom or an action as one word.
pub fn word_of(alloc: Global, name: &GroundName) -> Result<Vec<u8>, Memory>
    ensures { IfOk result (λ word. word.items ≡ encoded name.now) }
{
    let mut word = Vec::new(alloc);
    put_word(&mut word, name)?;
    Ok(word)
}

/// The name of an atom or an action as one word: its parts joined by `_-`, each `_` within them doubled.
pub fn encode_name(alloc: Global, name: &GroundName) -> Result<Text, Memory>
    requires { HasNoEmptyPart name.now }
    ensures value { IfOk result (λ word. word ≡ encoded name.now) }
    // What was encoded is decoded again.
    ensures decodes { IfOk result (λ word. decoded word ≡ Some name.now) }
{
    let word = word_of(alloc, name)?;
    Ok(Text::from_slice(alloc, &word)?)
}
