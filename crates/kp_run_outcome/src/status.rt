ghost use Rattle.std.specs.Prelude.{◌≡◌};
ghost use Rattle.kp_run_outcome.specs.Numbers.{number_of};

use kp_base::Refused;

/// How a command ended.
#[derive(Drop)]
pub enum Status {
    /// The command did what it is for.
    Done,
    /// The command answers no.
    Negative,
    /// The words are no command.
    Usage,
    /// An input is refused.
    Refused(Refused),
    /// The budget is spent.
    Spent,
    /// A file could not be read.
    ReadFault,
    /// A file could not be written, or the text not be printed.
    WriteFault,
    /// Memory ran out.
    Memory,
}

impl Status {
    /// The number with which the program ends.
    pub fn number(&self) -> u8
        ensures { result ≡ number_of self.now }
    {
        match self {
            Status::Done => 0,
            Status::Negative => 1,
            Status::Usage => 2,
            Status::Refused(_) => 3,
            Status::Spent => 4,
            Status::ReadFault => 5,
            Status::WriteFault => 6,
            Status::Memory => 7,
        }
    }
}
