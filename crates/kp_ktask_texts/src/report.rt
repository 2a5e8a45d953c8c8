ghost use Rattle.std.specs.Prelude.{◌≡◌, length, IfOk};
ghost use Rattle.kp_law_ktask.specs.Task.{task_of};
ghost use Rattle.kp_ktask_texts.specs.Report.{counts_of};

use kp_base::{Ground, Memory, Row, TagTable};
use kp_plans_spelling::put_count;
use std::alloc::Global;

/// The counts of a ground problem with a table, whose task has so many facts, each on a line of its own.
pub fn counts_text(
    alloc: Global,
    ground: &Ground,
    table: &TagTable,
    facts: usize,
) -> Result<Row<u8>, Memory>
    requires { facts ≡ length (task_of ground.now table.now).facts }
    ensures { IfOk result (λ bytes. bytes ≡ counts_of ground.now table.now) }
{
    let mut out = Vec::new(alloc);
    put_count(&mut out, b"atoms ", ground.atoms.len() as u64)?;
    put_count(&mut out, b"actions ", ground.actions.len() as u64)?;
    put_count(&mut out, b"tags ", table.tags.len() as u64)?;
    put_count(&mut out, b"merges ", table.merges.len() as u64)?;
    put_count(&mut out, b"facts ", facts as u64)?;
    Ok(Row::from_vec(out))
}
