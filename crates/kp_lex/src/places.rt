ghost use Rattle.std.specs.Prelude.{◌≡◌, ◌≤◌, length};
ghost use Rattle.kp_base.specs.Files.{most_bytes};
ghost use Rattle.kp_lex.specs.Places.{place_of};

use kp_base::{Part, Place};

/// The place of a byte of a file, which may be the file's end: the byte is counted from 0, its line from 1.
pub fn place(part: Part, bytes: &[u8], byte: u32) -> Place
    requires short { length bytes.now ≤ most_bytes }
    requires within { byte ≤ length bytes.now }
    ensures { result ≡ place_of part bytes.now byte }
{
    let line_feeds = bytes[..byte as usize]
        .iter()
        .filter(|b| **b == b'\n')
        .count();
    Place {
        part,
        line: 1 + line_feeds as u32,
        byte,
    }
}
