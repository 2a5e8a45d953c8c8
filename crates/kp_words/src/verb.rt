ghost use Rattle.std.specs.Prelude.{◌≡◌, ℕ, List, Option as Maybe, length, bytes_eq, IfOk, IfErr};
ghost use Rattle.kp_words_options.specs.Words.{Line};
ghost use Rattle.kp_words_options.specs.Texts.{texts, places_of, values_of};
ghost use Rattle.kp_words_options.specs.declared.stop.WordStop.TheVariants.{Usage};
ghost use Rattle.kp_words.specs.Forms.{form, verb_named};

use kp_words_options::{Given, WordStop, line_of};
use std::alloc::Global;

/// A command.
#[derive(Clone, Copy)]
pub enum Verb {
    /// Writes the classical problem of a conformant one.
    Translate,
    /// Prints a plan of a conformant problem.
    Solve,
    /// Prints a plan of a classical problem.
    Classical,
    /// Prints what a plan of the written files comes to in the given ones.
    Strip,
    /// Prints a plan of the written files that comes to a given plan, or where none can.
    Lift,
    /// Prints whether a plan works from every initial state, or the first from which it fails.
    Check,
    /// Prints the width of a conformant problem.
    Width,
    /// Prints the merges of a conformant problem.
    Merges,
    /// Prints a summary of what is found on a generated problem.
    Bench,
}

const VERBS: [Verb; 9] = [
    Verb::Translate,
    Verb::Solve,
    Verb::Classical,
    Verb::Strip,
    Verb::Lift,
    Verb::Check,
    Verb::Width,
    Verb::Merges,
    Verb::Bench,
];

/// The word of a command, the names of its positional words and its options, both in order, and
/// those of them that name files which it reads.
#[derive(Clone, Copy)]
pub(crate) struct Form<'a> {
    pub(crate) word: &'a str,
    pub(crate) places: &'a [&'a str],
    pub(crate) options: &'a [&'a str],
    pub(crate) reads: &'a [&'a str],
}

impl Verb {
    /// Its words.
    pub(crate) fn form<'a>(self) -> Form<'a>
        ensures word { result.word.now ≡ (form self).word }
        ensures places { texts result.places.now ≡ (form self).places }
        ensures options { texts result.options.now ≡ (form self).options }
        ensures reads { texts result.reads.now ≡ (form self).reads }
    {
        match self {
            Verb::Translate => Form {
                word: "translate",
                places: &["D", "P", "OD", "OP"],
                options: &["mode", "merges", "implicates"],
                reads: &["D", "P", "merges"],
            },
            Verb::Solve => Form {
                word: "solve",
                places: &["D", "P"],
                options: &["mode", "merges", "implicates", "budget", "classical"],
                reads: &["D", "P", "merges"],
            },
            Verb::Classical => Form {
                word: "classical",
                places: &["D", "P"],
                options: &["budget"],
                reads: &["D", "P"],
            },
            Verb::Strip => Form {
                word: "strip",
                places: &["T"],
                options: &[],
                reads: &["T"],
            },
            Verb::Lift => Form {
                word: "lift",
                places: &["D", "P", "PLAN"],
                options: &["mode", "merges", "implicates"],
                reads: &["D", "P", "merges", "PLAN"],
            },
            Verb::Check => Form {
                word: "check",
                places: &["D", "P", "PLAN"],
                options: &["implicates"],
                reads: &["D", "P", "PLAN"],
            },
            Verb::Width => Form {
                word: "width",
                places: &["D", "P"],
                options: &["bound", "implicates"],
                reads: &["D", "P"],
            },
            Verb::Merges => Form {
                word: "merges",
                places: &["D", "P"],
                options: &["mode", "implicates"],
                reads: &["D", "P"],
            },
            Verb::Bench => Form {
                word: "bench",
                places: &["FAMILY", "N"],
                options: &["mode", "budget"],
                reads: &[],
            },
        }
    }

    /// The names of the positional words and options that name files which it reads, in order.
    pub fn reads<'a>(self) -> &'a [&'a str]
        ensures { texts result.now ≡ (form self).reads }
    {
        self.form().reads
    }

    // Whether it has this word.
    fn is_named(self, word: &str) -> bool
        ensures { result ≡ bytes_eq word.now (form self).word }
    {
        word == self.form().word
    }

    /// What the words behind it say.
    #[tactic(auto, using(crate::proofs::Fitting::fits))]
    pub(crate) fn line<'a>(self, alloc: Global, words: &'a [&'a str]) -> Result<Given<'a>, WordStop>
        ensures ok { IfOk result (λ g. Line (texts words.entry.now) (places_of g) (form self).options (values_of g)) }
        ensures places { IfOk result (λ g. length g.places.items ≡ length (form self).places) }
        ensures err { IfErr result (λ e. e ≡ Usage → (places : List (List ℕ)) (values : List (Maybe (List ℕ))) → length places ≡ length (form self).places → Line (texts words.entry.now) places (form self).options values → ⊥) }
    {
        let form = self.form();
        line_of(alloc, form.word, form.places, form.options, words)
    }
}

/// The command of this word.
pub(crate) fn verb_of(word: &str) -> Option<Verb>
    ensures { result ≡ verb_named word.now }
{
    VERBS.iter().copied().find(|verb| verb.is_named(word))
}
