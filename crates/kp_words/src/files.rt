//! The files of a command.
ghost use Rattle.std.specs.Prelude.{◌≡◌, option_map};
ghost use Rattle.kp_words.specs.Command.{file_under};

use crate::asked::Asked;

impl<'a> Asked<'a> {
    /// The file that a name of the table names, if there is one.
    pub fn file(&self, name: &str) -> Option<&'a [u8]>
        ensures { option_map (λ f. f.now) result ≡ file_under self.now name.now }
    {
        if name == "D" {
            return Some(self.domain);
        }
        if name == "P" {
            return Some(self.problem);
        }
        if name == "PLAN" {
            return Some(self.plan);
        }
        if name == "T" {
            return Some(self.written);
        }
        if name == "OD" {
            return Some(self.domain_out);
        }
        if name == "OP" {
            return Some(self.problem_out);
        }
        if name == "merges" {
            return self.merges;
        }
        if name == "classical" {
            return self.classical;
        }
        None
    }
}
