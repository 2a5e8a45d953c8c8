ghost use Rattle.std.specs.Prelude.{◌≡◌, ◌≢◌, option_map, MatchOption};
ghost use Rattle.kp_base.specs.declared.limits.Mode.{Mode as Modes};
ghost use Rattle.kp_words.specs.Options.{mode_word, family_word, SaysMode, SaysFamily};
ghost use Rattle.kp_words.specs.declared.source.Family.{Family as Families};

use kp_base::{Mode, Text};

/// Where the tags and merges of a translation come from.
#[derive(Drop)]
pub enum Source {
    /// They are made in this mode.
    Mode(Mode),
    /// They are read from this file of merges.
    File(Text),
}

/// A family of generated problems.
#[derive(Clone, Copy)]
pub enum Family {
    /// Something that stands at one of the cells of a line, and is to come to the first.
    Line,
    /// Packages of which one is armed, and two toilets.
    Bombs,
}

// The mode of this word.
fn mode_of(word: &str) -> Option<Mode>
    ensures { MatchOption result ((m : Modes) → word.now ≢ mode_word m) (λ m. word.now ≡ mode_word m) }
{
    if word == "k0" {
        return Some(Mode::K0);
    }
    if word == "k1" {
        return Some(Mode::K1);
    }
    if word == "k2" {
        return Some(Mode::K2);
    }
    if word == "k3" {
        return Some(Mode::K3);
    }
    if word == "models" {
        return Some(Mode::Models);
    }
    if word == "auto" {
        return Some(Mode::Auto);
    }
    None
}

/// The mode that the value of an option says.
pub(crate) fn said_mode(value: Option<&str>) -> Option<Mode>
    ensures { MatchOption result ((m : Modes) → SaysMode (option_map (λ s. s.now) value.entry) m → ⊥) (λ m. SaysMode (option_map (λ s. s.now) value.entry) m) }
{
    match value {
        Some(word) => mode_of(word),
        None => Some(Mode::K1),
    }
}

// The family of this word.
fn family_of(word: &str) -> Option<Family>
    ensures { MatchOption result ((f : Families) → word.now ≢ family_word f) (λ f. word.now ≡ family_word f) }
{
    if word == "line" {
        return Some(Family::Line);
    }
    if word == "bombs" {
        return Some(Family::Bombs);
    }
    None
}

/// The family that a word says.
pub(crate) fn said_family(word: Option<&str>) -> Option<Family>
    ensures { MatchOption result ((f : Families) → SaysFamily (option_map (λ s. s.now) word.entry) f → ⊥) (λ f. SaysFamily (option_map (λ s. s.now) word.entry) f) }
{
    match word {
        Some(word) => family_of(word),
        None => Some(Family::Line),
    }
}
