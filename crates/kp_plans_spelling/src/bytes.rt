ghost use Rattle.std.specs.Prelude.{◌≡◌, ◌++◌, OnOk, decimal};
ghost use Rattle.kp_plans_spelling.specs.Spelling.{number_line};

use itoa::Buffer;
use kp_base::Memory;

/// Adds bytes at the end.
pub fn put(out: &mut Vec<u8>, bytes: &[u8]) -> Result<(), Memory>
    ensures { OnOk result (out.new.items ≡ out.old.items ++ bytes.now) }
{
    out.extend_from_slice(bytes)?;
    Ok(())
}

/// Adds a number in decimal.
pub fn put_number(out: &mut Vec<u8>, number: u64) -> Result<(), Memory>
    ensures { OnOk result (out.new.items ≡ out.old.items ++ decimal number) }
{
    let mut buffer = Buffer::new();
    put(out, buffer.format(number).as_bytes())
}

/// Adds the line of a number under a title.
pub fn put_count(out: &mut Vec<u8>, title: &[u8], number: u64) -> Result<(), Memory>
    ensures { OnOk result (out.new.items ≡ out.old.items ++ number_line title.now number) }
{
    put(out, title)?;
    put_number(out, number)?;
    put(out, b"\n")
}
