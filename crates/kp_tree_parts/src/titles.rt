ghost use Rattle.std.specs.Prelude.{◌<◌, ◌≤◌, length, IfOk};
ghost use Rattle.kp_tree_parts.specs.Lexemes.{from};
ghost use Rattle.kp_tree_parts.specs.Readers.{Passes, title_inside_at, title_at};

use kp_tree_cursor::{Halt, Lead, Tokens, close, follow, open, skip_name};

// The word and a name.
#[tactic(auto, unfolding(crate::specs::Readers::title_inside_at, kp_tree_cursor::specs::Readers::name_at))]
fn title_inside(tokens: &Tokens, at: usize, lead: Lead) -> Result<usize, Halt>
    ensures reads { Passes tokens.now result (title_inside_at lead (from tokens.now at)) }
    ensures onward { IfOk result (λ n. (at < n) × (n ≤ length tokens.now)) }
{
    let at = follow(tokens, at, lead)?;
    skip_name(tokens, at)
}

/// The place behind a bracket with the word and a name, which isn't kept.
#[tactic(auto, unfolding(crate::specs::Readers::title_at, crate::specs::Readers::title_inside_at))]
pub fn title(tokens: &Tokens, at: usize, levels: u32, lead: Lead) -> Result<usize, Halt>
    ensures reads { Passes tokens.now result (title_at lead levels (from tokens.now at)) }
    ensures onward { IfOk result (λ n. (at < n) × (n ≤ length tokens.now)) }
{
    let (at, _) = open(tokens, at, levels)?;
    let at = title_inside(tokens, at, lead)?;
    close(tokens, at)
}
