ghost use Rattle.std.specs.Prelude.{◌≡◌, ◌≤◌, length, None};
ghost use Rattle.kp_base.specs.Files.{most_bytes};
ghost use Rattle.kp_names_semantics.specs.Faults.{byte_of};
ghost use Rattle.kp_names.specs.Noted.{fault_view, sooner};
ghost use Rattle.kp_names.specs.Resolved.{refusal_of};

use kp_base::{Part, Refused};
use kp_lex::place;
use std::marker::Model;

/// What is wrong with a token, and the byte at which it begins.
#[derive(Clone, Copy, Debug, PartialEq, Eq)]
pub enum Fault {
    /// It names nothing.
    UnknownName(u32),
    /// Its name is declared already.
    DeclaredTwice(u32),
    /// It is the head of an atom with more or fewer terms than its predicate takes.
    WrongUse(u32),
}

impl Fault {
    fn byte(self) -> u32
        ensures { result ≡ byte_of (fault_view self) }
    {
        match self {
            Fault::UnknownName(byte) | Fault::DeclaredTwice(byte) | Fault::WrongUse(byte) => byte,
        }
    }

    /// The refusal of a file that has the fault.
    pub fn refusal(self, part: Part, bytes: &[u8]) -> Refused
        requires short { length bytes.now ≤ most_bytes }
        requires within { byte_of (fault_view self) ≤ length bytes.now }
        ensures { result ≡ refusal_of part bytes.now (fault_view self) }
    {
        match self {
            Fault::UnknownName(byte) => Refused::UnknownName(place(part, bytes, byte)),
            Fault::DeclaredTwice(byte) => Refused::DeclaredTwice(place(part, bytes, byte)),
            Fault::WrongUse(byte) => Refused::WrongUse(place(part, bytes, byte)),
        }
    }
}

/// The fault that stands first in the text, of those that were noted.
#[derive(Drop)]
pub struct First {
    fault: Option<Fault>,
}

impl Model for First {
    ghost use Rattle.std.specs.Prelude.{Option};
    ghost use Rattle.std.specs.Option.{option_map};
    ghost use Rattle.kp_names_semantics.specs.Faults.{Fault as Wrong};
    ghost use Rattle.kp_names.specs.Noted.{fault_view};

    ghost Value = { Option Wrong };

    ghost view = { λ f. option_map fault_view f.fault };
}

impl First {
    ghost use Rattle.std.specs.Option.{option_map};

    /// No fault.
    pub fn new() -> First
        ensures { result ≡ None }
    {
        First { fault: None }
    }

    /// Notes a fault.
    pub fn note(&mut self, fault: Fault)
        ensures { self.new ≡ sooner self.old (fault_view fault) }
    {
        self.fault = Some(match self.fault {
            Some(noted) if noted.byte() <= fault.byte() => noted,
            _ => fault,
        });
    }

    /// The fault.
    pub fn fault(&self) -> Option<Fault>
        ensures { option_map fault_view result ≡ self.now }
    {
        self.fault
    }
}
