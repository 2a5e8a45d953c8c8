ghost use Rattle.std.specs.Prelude.{◌≡◌, Err, IfOk, IfErr, MatchOption, map};
ghost use Rattle.kp_words_options.specs.Texts.{texts};
ghost use Rattle.kp_words_options.specs.declared.stop.WordStop.TheVariants.{Usage};
ghost use Rattle.kp_words.specs.Asked.{Asked as Names};
ghost use Rattle.kp_words.specs.Command.{AreUtf8, AreWords, IsCommand, IsNoCommand};
ghost use Rattle.kp_words.specs.Owned.{command_view};

use crate::asked::Asked;
use crate::commands::Command;
use crate::verb::verb_of;
use kp_base::Memory;
use kp_words_options::WordStop;
use std::alloc::Global;
use std::str;

/// The words as texts, where each is UTF-8.
pub fn as_texts<'a>(alloc: Global, words: &'a [Vec<u8>]) -> Result<Option<Vec<&'a str>>, Memory>
    ensures { IfOk result (λ r. MatchOption r (AreUtf8 (map (λ w. w.items) words.entry.now) → ⊥)
        (λ ts. (texts ts.items ≡ map (λ w. w.items) words.entry.now) × AreUtf8 (map (λ w. w.items) words.entry.now))) }
{
    let mut found = Vec::new(alloc);
    for word in words {
        let Ok(text) = str::from_utf8(word.as_slice()) else {
            return Ok(None);
        };
        found.push(text)?;
    }
    Ok(Some(found))
}

/// What texts ask for.
pub fn asked_by<'a>(alloc: Global, words: &'a [&'a str]) -> Result<Asked<'a>, WordStop>
    ensures ok { IfOk result (λ c. AreWords (texts words.entry.now) c) }
    ensures err { IfErr result (λ e. e ≡ Usage → (c : Names) → AreWords (texts words.entry.now) c → ⊥) }
{
    let Some((word, rest)) = words.split_first() else {
        return Err(WordStop::Usage);
    };
    let Some(verb) = verb_of(*word) else {
        return Err(WordStop::Usage);
    };
    Asked::from_rest(alloc, verb, rest)
}

/// The command that words are.
pub fn command(alloc: Global, words: &[Vec<u8>]) -> Result<Command, WordStop>
    ensures ok { IfOk result (λ c. IsCommand words.now (command_view c)) }
    ensures usage { result ≡ Err Usage → IsNoCommand words.now }
{
    let Some(found) = as_texts(alloc, words)? else {
        return Err(WordStop::Usage);
    };
    let asked = asked_by(alloc, found.as_slice())?;
    Ok(asked.to_owned(alloc)?)
}
