use kp_base::Memory;
use kp_bits::{Bits, are_apart, has_bit, only_here, with_bit};
use std::alloc::Global;
use std::test::Fail;

// Whether the last bit of a word and the last of the row are set, and those around them aren't.
fn sets_and_clears(alloc: Global) -> Result<bool, Memory> {
    let mut row = Bits::new(alloc, 130)?;
    row.set(63);
    row.set(64);
    row.set(129);
    row.clear(64);
    let set = row.get(63) && row.get(129);
    Ok(set && !row.get(62) && !row.get(64) && !row.get(128))
}

#[test]
fn sets_and_clears_one_bit(rt: HostRuntime) -> Result<(), Fail> {
    assert!(rt; sets_and_clears(rt.alloc())?);
    Ok(())
}

// Whether rows with one bit each are told apart.
fn compares(alloc: Global) -> Result<bool, Memory> {
    let mut one = Bits::new(alloc, 65)?;
    let mut other = Bits::new(alloc, 65)?;
    let both_empty = one.equal(&other);
    one.set(64);
    other.set(3);
    Ok(both_empty && !one.within(&other) && !one.equal(&other))
}

// Whether a row is within the other once that has its bits, and not the other way round.
fn joins(alloc: Global) -> Result<bool, Memory> {
    let mut one = Bits::new(alloc, 65)?;
    let mut other = Bits::new(alloc, 65)?;
    one.set(64);
    other.set(3);
    other.or_with(&one);
    Ok(one.within(&other) && !other.within(&one))
}

// Whether a row that was copied over is the other.
fn copies(alloc: Global) -> Result<bool, Memory> {
    let mut one = Bits::new(alloc, 65)?;
    let mut other = Bits::new(alloc, 65)?;
    one.set(64);
    other.set(3);
    one.copy_from(&other);
    Ok(one.equal(&other) && one.get(3) && !one.get(64))
}

#[test]
fn compares_and_joins_rows(rt: HostRuntime) -> Result<(), Fail> {
    assert!(rt; compares(rt.alloc())?);
    assert!(rt; joins(rt.alloc())?);
    assert!(rt; copies(rt.alloc())?);
    Ok(())
}

// Whether the words of a row have its bits, and past the end there are none.
fn has_words(alloc: Global) -> Result<bool, Memory> {
    let mut row = Bits::new(alloc, 70)?;
    row.set(63);
    row.set(64);
    row.set(69);
    Ok(row.word(0) == 1 << 63 && row.word(1) == 33 && row.word(2) == 0)
}

#[test]
fn reads_words(rt: HostRuntime) -> Result<(), Fail> {
    assert!(rt; has_words(rt.alloc())?);
    Ok(())
}

#[test]
fn compares_words(rt: HostRuntime) -> Result<(), Fail> {
    assert!(rt; only_here(6, 10) == 4);
    assert!(rt; are_apart(5, 10) && !are_apart(6, 10));
    assert!(rt; has_bit(with_bit(0, 63), 63) && !has_bit(with_bit(0, 63), 62));
    Ok(())
}
