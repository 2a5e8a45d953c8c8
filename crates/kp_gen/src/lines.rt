ghost use Rattle.std.specs.Prelude.{◌≡◌, ◌++◌, ◌<◌, ◌-◌, OnOk};
ghost use Rattle.std.specs.List.{flat_map, range_with_len};
ghost use Rattle.kp_gen.specs.Numbered.{numbered};

use kp_base::Memory;
use kp_plans_spelling::{put, put_number};

// Adds a number with what stands in front of it and behind it.
pub(crate) fn put_numbered(
    out: &mut Vec<u8>,
    front: &[u8],
    number: u32,
    behind: &[u8],
) -> Result<(), Memory>
    ensures { OnOk result (out.new.items ≡ out.old.items ++ numbered front.now behind.now number) }
{
    put(out, front)?;
    put_number(out, u64::from(number))?;
    put(out, behind)
}

// Adds this for each number from 1 to the last.
pub(crate) fn put_each(
    out: &mut Vec<u8>,
    front: &[u8],
    last: u32,
    behind: &[u8],
) -> Result<(), Memory>
    requires { last < 4294967295 }
    ensures { OnOk result (out.new.items ≡ out.old.items ++ flat_map (numbered front.now behind.now) (range_with_len 1 last)) }
{
    for number in 1..last + 1 {
        put_numbered(out, front, number, behind)?;
    }
    Ok(())
}
