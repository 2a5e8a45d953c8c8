//! What was read of the input files of a command, each by the part that it plays.
ghost use Rattle.std.specs.Prelude.{◌≡◌, [], ℕ, List, Option as Maybe, Some};
ghost use Rattle.kp_base.specs.Files.{most_bytes};
ghost use Rattle.kp_outside.specs.Outside.{FileMap, IsFront};
ghost use Rattle.kp_run_outcome.specs.Ends.{AreHeld};
ghost use Rattle.kp_words.specs.Asked.{Asked as Names, source_of};
ghost use Rattle.kp_words.specs.Command.{if_named};
ghost use Rattle.kp_run_inputs.specs.SourceTables.{IsOrigin};
ghost use Rattle.kp_run.specs.CommandParts.{AreMerges, AreReadUnder, with_read};

use kp_base::Row;
use kp_outside::Got;
use kp_run_inputs::Origin;
use kp_words::Asked;
use std::alloc::Global;

/// What was read of the files that a command may read; nothing of one that it doesn't.
#[derive(Drop)]
pub struct Inputs {
    /// Of the domain.
    pub domain: Got,
    /// Of the problem.
    pub problem: Got,
    /// Of the file of merges, if it reads one.
    pub merges: Option<Got>,
    /// Of a file with a plan of these two.
    pub plan: Got,
    /// Of a file with a plan of written files.
    pub written: Got,
}

// Nothing of a file.
fn nothing(alloc: Global) -> Got
    ensures { IsFront (Some []) most_bytes result }
{
    Got {
        bytes: Row::new(alloc),
        more: false,
    }
}

impl Inputs {
    /// Nothing is read.
    pub fn new(alloc: Global) -> Inputs
        ensures { (held : Maybe FileMap) (c : Names) → AreReadUnder held [] c result }
    {
        Inputs {
            domain: nothing(alloc),
            problem: nothing(alloc),
            merges: None,
            plan: nothing(alloc),
            written: nothing(alloc),
        }
    }

    /// This is read under a name.
    pub fn set(&mut self, name: &str, got: Got)
        ensures { self.new ≡ with_read name.now got self.old }
    {
        if name == "D" {
            self.domain = got;
        } else if name == "P" {
            self.problem = got;
        } else if name == "merges" {
            self.merges = Some(got);
        } else if name == "PLAN" {
            self.plan = got;
        } else if name == "T" {
            self.written = got;
        }
    }
}

/// Where the tags and merges of a command come from that names a file of merges or a mode.
pub fn origin_of(asked: &Asked<'_>, merges: Option<Got>) -> Origin
    ensures { (held : Maybe FileMap) (texts : List (List ℕ)) → AreHeld held (if_named asked.now.merges) texts → AreMerges texts merges → IsOrigin (source_of asked.now) texts result }
{
    match merges {
        Some(got) => Origin::Merges(got),
        None => Origin::Mode(asked.mode),
    }
}
