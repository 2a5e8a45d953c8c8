ghost use Rattle.std.specs.Prelude.{◌≡◌, List, ℕ, Option as Maybe, IfOk, option_map};
ghost use Rattle.kp_words.specs.Command.{AreOf};
ghost use Rattle.kp_words.specs.Owned.{command_view, kept, mode_beside, mode_in, merges_in};
ghost use Rattle.kp_words.specs.declared.verb.Verb.TheVariants as verbs;

use crate::asked::Asked;
use crate::source::{Family, Source};
use crate::verb::Verb;
use kp_base::{Memory, Mode, Text};
use std::alloc::Global;

/// A command, with its words and the values of its options.
#[derive(Drop)]
pub enum Command {
    /// Writes the classical problem of a conformant one.
    Translate {
        domain: Text,
        problem: Text,
        to_domain: Text,
        to_problem: Text,
        source: Source,
        implicates: u32,
    },
    /// Prints a plan of a conformant problem.
    Solve {
        domain: Text,
        problem: Text,
        source: Source,
        implicates: u32,
        budget: u32,
        classical: Option<Text>,
    },
    /// Prints a plan of a classical problem.
    Classical {
        domain: Text,
        problem: Text,
        budget: u32,
    },
    /// Prints what a plan of the written files comes to in the given ones.
    Strip {
        plan: Text,
    },
    /// Prints a plan of the written files that comes to a given plan, or where none can.
    Lift {
        domain: Text,
        problem: Text,
        plan: Text,
        source: Source,
        implicates: u32,
    },
    /// Prints whether a plan works from every initial state, or the first from which it fails.
    Check {
        domain: Text,
        problem: Text,
        plan: Text,
        implicates: u32,
    },
    /// Prints the width of a conformant problem.
    Width {
        domain: Text,
        problem: Text,
        bound: u32,
        implicates: u32,
    },
    /// Prints the merges of a conformant problem.
    Merges {
        domain: Text,
        problem: Text,
        mode: Mode,
        implicates: u32,
    },
    /// Prints a summary of what is found on a generated problem.
    Bench {
        family: Family,
        n: u32,
        mode: Mode,
        budget: u32,
    },
}

// The names of two files.
#[derive(Drop)]
struct Files {
    first: Text,
    second: Text,
}

// Two names of their own.
fn two_names(alloc: Global, first: &[u8], second: &[u8]) -> Result<Files, Memory>
    ensures first { IfOk result (λ p. p.first ≡ first.now) }
    ensures second { IfOk result (λ p. p.second ≡ second.now) }
{
    let first = Text::from_slice(alloc, first)?;
    let second = Text::from_slice(alloc, second)?;
    Ok(Files { first, second })
}

// A name of its own, if there is one.
fn owned(alloc: Global, name: Option<&[u8]>) -> Result<Option<Text>, Memory>
    ensures { IfOk result (λ n. n ≡ option_map (λ w. w.now) name.entry) }
{
    match name {
        Some(name) => Ok(Some(Text::from_slice(alloc, name)?)),
        None => Ok(None),
    }
}

impl<'a> Asked<'a> {
    // Where its tags and merges come from, with a name of its own.
    fn owned_source(&self, alloc: Global) -> Result<Source, Memory>
        requires { self.now.mode ≡ mode_beside self.now.merges self.now.mode }
        ensures mode { IfOk result (λ s. mode_in s ≡ self.now.mode) }
        ensures merges { IfOk result (λ s. merges_in s ≡ self.now.merges) }
    {
        match self.merges {
            Some(name) => Ok(Source::File(Text::from_slice(alloc, name)?)),
            None => Ok(Source::Mode(self.mode)),
        }
    }

    // The translation.
    fn translate(&self, alloc: Global) -> Result<Command, Memory>
        requires kept { self.now ≡ kept verbs.Translate self.now }
        requires source { self.now.mode ≡ mode_beside self.now.merges self.now.mode }
        ensures { IfOk result (λ c. command_view c ≡ self.now) }
    {
        let given = two_names(alloc, self.domain, self.problem)?;
        let written = two_names(alloc, self.domain_out, self.problem_out)?;
        let source = self.owned_source(alloc)?;
        Ok(Command::Translate {
            domain: given.first,
            problem: given.second,
            to_domain: written.first,
            to_problem: written.second,
            source,
            implicates: self.implicates,
        })
    }

    // The call to solve.
    fn solve(&self, alloc: Global) -> Result<Command, Memory>
        requires kept { self.now ≡ kept verbs.Solve self.now }
        requires source { self.now.mode ≡ mode_beside self.now.merges self.now.mode }
        ensures { IfOk result (λ c. command_view c ≡ self.now) }
    {
        let given = two_names(alloc, self.domain, self.problem)?;
        let source = self.owned_source(alloc)?;
        let classical = owned(alloc, self.classical)?;
        Ok(Command::Solve {
            domain: given.first,
            problem: given.second,
            source,
            implicates: self.implicates,
            budget: self.budget,
            classical,
        })
    }

    // The call to solve classical files.
    fn classical(&self, alloc: Global) -> Result<Command, Memory>
        requires { self.now ≡ kept verbs.Classical self.now }
        ensures { IfOk result (λ c. command_view c ≡ self.now) }
    {
        let given = two_names(alloc, self.domain, self.problem)?;
        Ok(Command::Classical {
            domain: given.first,
            problem: given.second,
            budget: self.budget,
        })
    }

    // The strip.
    fn strip(&self, alloc: Global) -> Result<Command, Memory>
        requires { self.now ≡ kept verbs.Strip self.now }
        ensures { IfOk result (λ c. command_view c ≡ self.now) }
    {
        let plan = Text::from_slice(alloc, self.written)?;
        Ok(Command::Strip { plan })
    }

    // The lift.
    fn lift(&self, alloc: Global) -> Result<Command, Memory>
        requires kept { self.now ≡ kept verbs.Lift self.now }
        requires source { self.now.mode ≡ mode_beside self.now.merges self.now.mode }
        ensures { IfOk result (λ c. command_view c ≡ self.now) }
    {
        let given = two_names(alloc, self.domain, self.problem)?;
        let plan = Text::from_slice(alloc, self.plan)?;
        let source = self.owned_source(alloc)?;
        Ok(Command::Lift {
            domain: given.first,
            problem: given.second,
            plan,
            source,
            implicates: self.implicates,
        })
    }

    // The check.
    fn check(&self, alloc: Global) -> Result<Command, Memory>
        requires { self.now ≡ kept verbs.Check self.now }
        ensures { IfOk result (λ c. command_view c ≡ self.now) }
    {
        let given = two_names(alloc, self.domain, self.problem)?;
        let plan = Text::from_slice(alloc, self.plan)?;
        Ok(Command::Check {
            domain: given.first,
            problem: given.second,
            plan,
            implicates: self.implicates,
        })
    }

    // The call for the width.
    fn width(&self, alloc: Global) -> Result<Command, Memory>
        requires { self.now ≡ kept verbs.Width self.now }
        ensures { IfOk result (λ c. command_view c ≡ self.now) }
    {
        let given = two_names(alloc, self.domain, self.problem)?;
        Ok(Command::Width {
            domain: given.first,
            problem: given.second,
            bound: self.bound,
            implicates: self.implicates,
        })
    }

    // The call for merges.
    fn list_merges(&self, alloc: Global) -> Result<Command, Memory>
        requires { self.now ≡ kept verbs.Merges self.now }
        ensures { IfOk result (λ c. command_view c ≡ self.now) }
    {
        let given = two_names(alloc, self.domain, self.problem)?;
        Ok(Command::Merges {
            domain: given.first,
            problem: given.second,
            mode: self.mode,
            implicates: self.implicates,
        })
    }

    // The run on a generated problem.
    fn bench(&self) -> Command
        requires { self.now ≡ kept verbs.Bench self.now }
        ensures { command_view result ≡ self.now }
    {
        Command::Bench {
            family: self.family,
            n: self.size,
            mode: self.mode,
            budget: self.budget,
        }
    }

    // The command, which is of this verb.
    fn owned_by(&self, alloc: Global, verb: Verb) -> Result<Command, Memory>
        requires kept { self.now ≡ kept verb self.now }
        requires source { self.now.mode ≡ mode_beside self.now.merges self.now.mode }
        ensures { IfOk result (λ c. command_view c ≡ self.now) }
    {
        match verb {
            Verb::Translate => self.translate(alloc),
            Verb::Solve => self.solve(alloc),
            Verb::Classical => self.classical(alloc),
            Verb::Strip => self.strip(alloc),
            Verb::Lift => self.lift(alloc),
            Verb::Check => self.check(alloc),
            Verb::Width => self.width(alloc),
            Verb::Merges => self.list_merges(alloc),
            Verb::Bench => Ok(self.bench()),
        }
    }

    /// The command, with names of its own.
    pub(crate) fn to_owned(&self, alloc: Global) -> Result<Command, Memory>
        requires { (places : List (List ℕ)) × (values : List (Maybe (List ℕ))) × AreOf self.now.verb places values self.now }
        ensures { IfOk result (λ c. command_view c ≡ self.now) }
    {
        self.owned_by(alloc, self.verb)
    }
}
