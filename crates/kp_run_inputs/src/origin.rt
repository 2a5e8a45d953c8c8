use kp_base::Mode;
use kp_outside::Got;

/// Where the tags and merges of a command come from, with what was read of their file.
#[derive(Drop)]
pub enum Origin {
    /// They are made in this mode.
    Mode(Mode),
    /// They are those of a file of merges, of which this was read.
    Merges(Got),
}
