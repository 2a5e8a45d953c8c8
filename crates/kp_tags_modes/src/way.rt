//! What a mode does for a target.
ghost use Rattle.std.specs.Prelude.{◌≡◌, true, false};
ghost use Rattle.kp_tags_modes.specs.Modes.{way_of};

use kp_base::Mode;

/// What a mode does for a target.
#[derive(Clone, Copy)]
pub struct Way {
    /// The greatest size of which sets of clauses are tried.
    pub greatest: u32,
    /// Whether a size with more sets than the limit is skipped, and not refused.
    pub skips: bool,
    /// Whether all assignments are taken where no set covers, and not each clause alone.
    pub by_models: bool,
}

// Up to a size, with a merge for each clause where no set covers.
fn up_to(greatest: u32) -> Way
    ensures { result ≡ record { greatest = greatest; skips = false; by_models = false } }
{
    Way {
        greatest,
        skips: false,
        by_models: false,
    }
}

// Up to a size, with all assignments where no set that is tried covers.
fn else_models(greatest: u32) -> Way
    ensures { result ≡ record { greatest = greatest; skips = true; by_models = true } }
{
    Way {
        greatest,
        skips: true,
        by_models: true,
    }
}

/// What a mode does; nothing for `K0`.
pub fn way_of(mode: Mode) -> Option<Way>
    ensures { result ≡ way_of mode }
{
    match mode {
        Mode::K0 => None,
        Mode::K1 => Some(up_to(1)),
        Mode::K2 => Some(up_to(2)),
        Mode::K3 => Some(up_to(3)),
        Mode::Models => Some(else_models(0)),
        Mode::Auto => Some(else_models(3)),
    }
}
