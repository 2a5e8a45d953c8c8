ghost use Rattle.std.specs.Prelude.{◌≡◌, ◌↔◌, ℕ, option_map, codes, length, IsTrue, MatchOption, IfOk, IfErr};
ghost use Rattle.kp_base.specs.declared.limits.Mode.{Mode as Modes};
ghost use Rattle.kp_words_options.specs.Texts.{texts, places_of, values_of};
ghost use Rattle.kp_words_options.specs.declared.stop.WordStop.TheVariants.{Usage};
ghost use Rattle.kp_words.specs.Asked.{Asked as Names};
ghost use Rattle.kp_words.specs.Forms.{form};
ghost use Rattle.kp_words.specs.Options.{AreApart, AreNotBoth, SaysBound, SaysBudget, SaysFamily, SaysLimit, SaysMode, SaysSize};
ghost use Rattle.kp_words.specs.Command.{said, place_in, value_in, AreOf, Behind};
ghost use Rattle.kp_words.specs.declared.source.Family.{Family as Families};

use crate::lookup::{place, value};
use crate::source::{Family, said_family, said_mode};
use crate::values::{
    are_apart, are_not_both, bytes_of, said_bound, said_budget, said_limit, said_size,
};
use crate::verb::Verb;
use kp_base::Mode;
use kp_words_options::{Given, WordStop};
use std::alloc::Global;
use std::marker::Model;

/// What the words of a command ask for. A part for which a command has no word is as if nothing
/// were said of it.
#[derive(Drop)]
pub struct Asked<'a> {
    /// Which command it is.
    pub verb: Verb,
    /// The domain that is read.
    pub domain: &'a [u8],
    /// The problem that is read.
    pub problem: &'a [u8],
    /// The file with a plan of these two.
    pub plan: &'a [u8],
    /// The file with a plan of written files.
    pub written: &'a [u8],
    /// The domain that is written.
    pub domain_out: &'a [u8],
    /// The problem that is written.
    pub problem_out: &'a [u8],
    /// The mode in which tags and merges are made, where no file of merges is named; else the
    /// usual one.
    pub mode: Mode,
    /// The file of merges, if one is named.
    pub merges: Option<&'a [u8]>,
    /// How many prime implicates a prefix of the initial clauses may have.
    pub implicates: u32,
    /// How many states a search may expand.
    pub budget: u32,
    /// The greatest size of a set of clauses.
    pub bound: u32,
    /// The file that the classical plan is written to, if it is.
    pub classical: Option<&'a [u8]>,
    /// The family of a generated problem.
    pub family: Family,
    /// Its size.
    pub size: u32,
}

impl<'a> Model for Asked<'a> {
    ghost use Rattle.std.specs.Prelude.{option_map};
    ghost use Rattle.kp_words.specs.Asked.{Asked as Names};

    ghost Value = { Names };

    ghost view = { λ c. record { verb = c.verb; domain = c.domain.now; problem = c.problem.now; plan = c.plan.now; written = c.written.now; domain_out = c.domain_out.now; problem_out = c.problem_out.now; mode = c.mode; merges = option_map (λ n. n.now) c.merges; implicates = c.implicates; budget = c.budget; bound = c.bound; classical = option_map (λ n. n.now) c.classical; family = c.family; size = c.size } };
}

// The positional words that name files.
#[derive(Drop)]
struct FileNames<'a> {
    domain: &'a [u8],
    problem: &'a [u8],
    plan: &'a [u8],
    written: &'a [u8],
    domain_out: &'a [u8],
    problem_out: &'a [u8],
}

// The bytes of a word; none where there is none.
fn said<'a>(word: Option<&'a str>) -> &'a [u8]
    ensures { result.now ≡ said (option_map (λ w. w.now) word.entry) }
{
    match word {
        Some(word) => word.as_bytes(),
        None => &[],
    }
}

// The names of files that positional words say.
fn named<'a>(verb: Verb, line: &Given<'a>) -> FileNames<'a>
    ensures domain { result.domain.now ≡ said (place_in verb (places_of line.now) (codes "D")) }
    ensures problem { result.problem.now ≡ said (place_in verb (places_of line.now) (codes "P")) }
    ensures plan { result.plan.now ≡ said (place_in verb (places_of line.now) (codes "PLAN")) }
    ensures written { result.written.now ≡ said (place_in verb (places_of line.now) (codes "T")) }
    ensures domain_out { result.domain_out.now ≡ said (place_in verb (places_of line.now) (codes "OD")) }
    ensures problem_out { result.problem_out.now ≡ said (place_in verb (places_of line.now) (codes "OP")) }
{
    FileNames {
        domain: said(place(verb, line, "D")),
        problem: said(place(verb, line, "P")),
        plan: said(place(verb, line, "PLAN")),
        written: said(place(verb, line, "T")),
        domain_out: said(place(verb, line, "OD")),
        problem_out: said(place(verb, line, "OP")),
    }
}

// Whether two written files, where both are named, have different names.
fn outputs_differ(verb: Verb, line: &Given<'_>) -> bool
    ensures { IsTrue result ↔ AreApart (place_in verb (places_of line.now) (codes "OD")) (place_in verb (places_of line.now) (codes "OP")) }
{
    are_apart(place(verb, line, "OD"), place(verb, line, "OP"))
}

// The family and the size of a generated problem that positional words say.
fn generated(verb: Verb, line: &Given<'_>) -> Option<(Family, u32)>
    ensures { MatchOption result
        ((family : Families) (size : ℕ) → SaysFamily (place_in verb (places_of line.now) (codes "FAMILY")) family → SaysSize (place_in verb (places_of line.now) (codes "N")) size → ⊥)
        (λ r. SaysFamily (place_in verb (places_of line.now) (codes "FAMILY")) r.0 × SaysSize (place_in verb (places_of line.now) (codes "N")) r.1) }
{
    let family = said_family(place(verb, line, "FAMILY"))?;
    let size = said_size(place(verb, line, "N"))?;
    Some((family, size))
}

// The mode that the value of an option says, where no file of merges is named beside it.
fn mode(verb: Verb, line: &Given<'_>) -> Option<Mode>
    ensures { MatchOption result
        ((mode : Modes) → SaysMode (value_in verb (values_of line.now) (codes "mode")) mode → AreNotBoth (value_in verb (values_of line.now) (codes "mode")) (value_in verb (values_of line.now) (codes "merges")) → ⊥)
        (λ mode. SaysMode (value_in verb (values_of line.now) (codes "mode")) mode × AreNotBoth (value_in verb (values_of line.now) (codes "mode")) (value_in verb (values_of line.now) (codes "merges"))) }
{
    let said = value(verb, line, "mode");
    if !are_not_both(said, value(verb, line, "merges")) {
        return None;
    }
    let mode = said_mode(said)?;
    Some(mode)
}

// The limit of prime implicates, the budget of a search and the greatest size of a set of clauses.
fn numbers(verb: Verb, line: &Given<'_>) -> Option<(u32, u32, u32)>
    ensures { MatchOption result
        ((implicates budget bound : ℕ) → SaysLimit (value_in verb (values_of line.now) (codes "implicates")) implicates → SaysBudget (value_in verb (values_of line.now) (codes "budget")) budget → SaysBound (value_in verb (values_of line.now) (codes "bound")) bound → ⊥)
        (λ r. SaysLimit (value_in verb (values_of line.now) (codes "implicates")) r.0 × SaysBudget (value_in verb (values_of line.now) (codes "budget")) r.1 × SaysBound (value_in verb (values_of line.now) (codes "bound")) r.2) }
{
    let implicates = said_limit(value(verb, line, "implicates"))?;
    let budget = said_budget(value(verb, line, "budget"))?;
    let bound = said_bound(value(verb, line, "bound"))?;
    Some((implicates, budget, bound))
}

impl<'a> Asked<'a> {
    // What positional words and values, in the order of a command's own, ask of it.
    fn from_line(verb: Verb, line: &Given<'a>) -> Option<Asked<'a>>
        requires { length line.now.places.items ≡ length (form verb).places }
        ensures { MatchOption result ((c : Names) → AreOf verb (places_of line.now) (values_of line.now) c → ⊥) (λ c. (c.verb ≡ verb) × AreOf verb (places_of line.now) (values_of line.now) c) }
    {
        if !outputs_differ(verb, line) {
            return None;
        }
        let (family, size) = generated(verb, line)?;
        let mode = mode(verb, line)?;
        let (implicates, budget, bound) = numbers(verb, line)?;
        let files = named(verb, line);
        Some(Asked {
            verb,
            domain: files.domain,
            problem: files.problem,
            plan: files.plan,
            written: files.written,
            domain_out: files.domain_out,
            problem_out: files.problem_out,
            mode,
            merges: bytes_of(value(verb, line, "merges")),
            implicates,
            budget,
            bound,
            classical: bytes_of(value(verb, line, "classical")),
            family,
            size,
        })
    }

    /// What the words behind that of a command ask of it.
    pub(crate) fn from_rest(
        alloc: Global,
        verb: Verb,
        words: &'a [&'a str],
    ) -> Result<Asked<'a>, WordStop>
        ensures ok { IfOk result (λ c. (c.verb ≡ verb) × Behind verb (texts words.entry.now) c) }
        ensures err { IfErr result (λ e. e ≡ Usage → (c : Names) → Behind verb (texts words.entry.now) c → ⊥) }
    {
        let line = verb.line(alloc, words)?;
        let found = Asked::from_line(verb, &line);
        drop(line);
        match found {
            Some(asked) => Ok(asked),
            None => Err(WordStop::Usage),
        }
    }
}
