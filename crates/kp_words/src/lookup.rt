//! What a line says under a name.
ghost use Rattle.std.specs.Prelude.{◌≡◌, Some, map, option_map};
ghost use Rattle.kp_words_options.specs.Texts.{texts, places_of, values_of};
ghost use Rattle.kp_words.specs.Forms.{value_at};
ghost use Rattle.kp_words.specs.Command.{place_in, value_in};

use crate::verb::Verb;
use kp_words_options::Given;

// The value under a name, where values stand in the order of some names.
#[tactic(auto, using(crate::proofs::Lookups::nothing_left))]
fn value_at<'a>(names: &[&str], values: &[Option<&'a str>], name: &str) -> Option<&'a str>
    ensures { option_map (λ s. s.now) result ≡ value_at (texts names.now) (map (option_map (λ s. s.now)) values.now) name.now }
{
    for (number, one) in names.iter().enumerate() {
        if *one == name {
            return match values.get(number) {
                Some(value) => *value,
                None => None,
            };
        }
    }
    None
}

// The positional word of a name, where words stand in the order of some names.
#[tactic(auto, using(crate::proofs::Lookups::nothing_left))]
fn word_at<'a>(names: &[&str], words: &[&'a str], name: &str) -> Option<&'a str>
    ensures { option_map (λ s. s.now) result ≡ value_at (texts names.now) (map Some (texts words.now)) name.now }
{
    for (number, one) in names.iter().enumerate() {
        if *one == name {
            return words.get(number).copied();
        }
    }
    None
}

/// The positional word of this name.
pub(crate) fn place<'a>(verb: Verb, line: &Given<'a>, name: &str) -> Option<&'a str>
    ensures { option_map (λ w. w.now) result ≡ place_in verb (places_of line.now) name.now }
{
    word_at(verb.form().places, line.places.as_slice(), name)
}

/// The value of the option of this name.
pub(crate) fn value<'a>(verb: Verb, line: &Given<'a>, name: &str) -> Option<&'a str>
    ensures { option_map (λ w. w.now) result ≡ value_in verb (values_of line.now) name.now }
{
    value_at(verb.form().options, line.values.as_slice(), name)
}
