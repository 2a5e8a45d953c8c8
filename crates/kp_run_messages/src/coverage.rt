ghost use Rattle.std.specs.Prelude.{◌≡◌, ◌++◌, OnOk};
ghost use Rattle.kp_run_messages.specs.Coverage.{completeness_line, uncovered_lines, coverage_text};

use kp_base::{GroundName, Lit, Memory};
use kp_plans_spelling::{put, put_literal};

// Adds the lines of targets that aren't covered.
fn put_uncovered(out: &mut Vec<u8>, atoms: &[GroundName], targets: &[Lit]) -> Result<(), Memory>
    ensures { OnOk result (out.new.items ≡ out.old.items ++ uncovered_lines atoms.now targets.now) }
{
    for target in targets {
        put(out, b"uncovered ")?;
        put_literal(out, atoms, *target)?;
        put(out, b"\n")?;
    }
    Ok(())
}

// Adds `complete` where no target is uncovered, and else `incomplete`.
pub(crate) fn put_completeness(out: &mut Vec<u8>, uncovered: &[Lit]) -> Result<(), Memory>
    ensures { OnOk result (out.new.items ≡ out.old.items ++ completeness_line uncovered.now) }
{
    if uncovered.is_empty() {
        put(out, b"complete\n")
    } else {
        put(out, b"incomplete\n")
    }
}

/// Adds whether the table is complete, and a line for each target that is uncovered.
pub fn put_coverage(
    out: &mut Vec<u8>,
    atoms: &[GroundName],
    uncovered: &[Lit],
) -> Result<(), Memory>
    ensures { OnOk result (out.new.items ≡ out.old.items ++ coverage_text atoms.now uncovered.now) }
{
    put_completeness(out, uncovered)?;
    put_uncovered(out, atoms, uncovered)
}
