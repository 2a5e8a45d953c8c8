use kp_outside::{FileShelf, MemoryShelf, MemorySink, OutSink, OutsideStop, Shelf, Sink};
use std::alloc::{AllocError, Global};
use std::fs;
use std::test::Fail;

// Whether a get answers these bytes, and whether there are more.
fn gets<S: Shelf>(
    alloc: Global,
    shelf: &mut S,
    name: &[u8],
    most: usize,
    bytes: &[u8],
    more: bool,
) -> bool {
    match shelf.get(alloc, name, most) {
        Ok(got) => got.bytes.slice() == bytes && got.more == more,
        Err(_) => false,
    }
}

fn fails_to_get<S: Shelf>(alloc: Global, shelf: &mut S, name: &[u8]) -> bool {
    matches!(shelf.get(alloc, name, 9), Err(OutsideStop::Failed))
}

fn puts<S: Shelf>(alloc: Global, shelf: &mut S, name: &[u8], bytes: &[u8]) -> bool {
    shelf.put(alloc, name, bytes).is_ok()
}

fn fails_to_put<S: Shelf>(alloc: Global, shelf: &mut S, name: &[u8], bytes: &[u8]) -> bool {
    matches!(shelf.put(alloc, name, bytes), Err(OutsideStop::Failed))
}

fn holds(shelf: &MemoryShelf, name: &[u8], bytes: &[u8]) -> bool {
    match shelf.held(name) {
        Some(content) => content.slice() == bytes,
        None => false,
    }
}

// A shelf that holds `hi` under `a`. Its calls 2 and 6 fail.
fn faulty_shelf(alloc: Global) -> Result<MemoryShelf, OutsideStop> {
    let mut shelf = MemoryShelf::new(alloc)?;
    shelf.hold(b"a".as_slice(), b"old".as_slice())?;
    shelf.hold(b"a".as_slice(), b"hi".as_slice())?;
    shelf.fail_at(2)?;
    shelf.fail_at(6)?;
    Ok(shelf)
}

// Calls 1 to 4. Under `b` nothing is held.
fn gets_in_turn(alloc: Global, shelf: &mut MemoryShelf) -> bool {
    gets(alloc, shelf, b"a", 9, b"hi", false)
        && fails_to_get(alloc, shelf, b"a")
        && fails_to_get(alloc, shelf, b"b")
        && gets(alloc, shelf, b"a", 1, b"h", true)
}

// Calls 5 to 7.
fn puts_in_turn(alloc: Global, shelf: &mut MemoryShelf) -> bool {
    puts(alloc, shelf, b"b", b"xyz")
        && holds(shelf, b"b", b"xyz")
        && fails_to_put(alloc, shelf, b"b", b"w")
        && holds(shelf, b"b", b"xyz")
        && puts(alloc, shelf, b"b", b"")
        && holds(shelf, b"b", b"")
}

// The calls of a shelf in memory, in order.
#[test]
fn shelf_in_memory(rt: HostRuntime) -> Result<(), Fail> {
    let alloc = rt.alloc();
    let mut shelf = faulty_shelf(alloc)?;
    let are_got = gets_in_turn(alloc, &mut shelf);
    let are_put = puts_in_turn(alloc, &mut shelf);
    let is_bare = shelf.held(b"c".as_slice()).is_none();
    drop(shelf);
    assert!(rt; are_got);
    assert!(rt; are_put);
    assert!(rt; is_bare);
    Ok(())
}

// Whether a write ends so, and what is told afterwards.
fn writes(alloc: Global, sink: &mut MemorySink, bytes: &[u8], fails: bool, told: &[u8]) -> bool {
    sink.write(alloc, bytes).is_err() == fails && sink.bytes().slice() == told
}

fn writes_in_turn(alloc: Global, sink: &mut MemorySink) -> bool {
    writes(alloc, sink, b"one", false, b"one")
        && writes(alloc, sink, b"two", true, b"one")
        && writes(alloc, sink, b"", false, b"one")
        && writes(alloc, sink, b"4", false, b"one4")
}

// The calls of a sink in memory, in order. Call 2 fails by its number.
#[test]
fn sink_in_memory(rt: HostRuntime) -> Result<(), Fail> {
    let alloc = rt.alloc();
    let mut sink = MemorySink::new(alloc)?;
    sink.fail_at(2)?;
    let are_written = writes_in_turn(alloc, &mut sink);
    drop(sink);
    assert!(rt; are_written);
    Ok(())
}

const NAME: &[u8] = b"kp_outside_file";

// Whether 20,000 bytes come back.
fn keeps_a_long_file<S: Shelf>(alloc: Global, shelf: &mut S) -> Result<bool, AllocError> {
    let bytes = vec![in alloc; 7u8; 20_000]?;
    let is_put = puts(alloc, shelf, NAME, bytes.as_slice());
    Ok(is_put && gets(alloc, shelf, NAME, 20_000, bytes.as_slice(), false))
}

// Whether less is written over more, and comes back whole and in part.
fn keeps_a_short_file<S: Shelf>(alloc: Global, shelf: &mut S) -> bool {
    puts(alloc, shelf, NAME, b"content")
        && gets(alloc, shelf, NAME, 9, b"content", false)
        && gets(alloc, shelf, NAME, 7, b"content", false)
        && gets(alloc, shelf, NAME, 6, b"conten", true)
        && gets(alloc, shelf, NAME, 0, b"", true)
}

// Whether a file that isn't there, one in a folder that isn't, and a name that is no text fail.
fn refuses_names<S: Shelf>(alloc: Global, shelf: &mut S) -> bool {
    fails_to_get(alloc, shelf, NAME)
        && fails_to_get(alloc, shelf, b"kp_outside_none/file")
        && fails_to_get(alloc, shelf, b"\xff")
        && fails_to_put(alloc, shelf, b"\xff", b"")
}

fn keeps_files<S: Shelf>(alloc: Global, shelf: &mut S) -> Result<bool, AllocError> {
    Ok(keeps_a_long_file(alloc, shelf)? && keeps_a_short_file(alloc, shelf))
}

fn takes_away(rt: &HostRuntime) -> bool {
    fs::remove_file(rt, "kp_outside_file").is_ok()
}

// A real file is written, written over by less, read back, and taken away.
#[test]
fn files(rt: HostRuntime) -> Result<(), Fail> {
    let mut shelf = FileShelf::new(&rt);
    let are_kept = keeps_files(rt.alloc(), &mut shelf)?;
    let is_taken = takes_away(&rt);
    let are_refused = refuses_names(rt.alloc(), &mut shelf);
    drop(shelf);
    assert!(rt; are_kept);
    assert!(rt; is_taken);
    assert!(rt; are_refused);
    Ok(())
}

#[test]
fn standard_output(rt: HostRuntime) -> Result<(), Fail> {
    let mut sink = OutSink::new(&rt);
    for bytes in ["printed ", "", "once\n"] {
        sink.write(rt.alloc(), bytes.as_bytes())?;
    }
    Ok(())
}

fn says(alloc: Global, stop: OutsideStop, message: &str) -> Result<bool, AllocError> {
    Ok(format!(in alloc; "{stop}")?.as_str() == message)
}

#[test]
fn messages(rt: HostRuntime) -> Result<(), Fail> {
    assert!(rt; says(rt.alloc(), OutsideStop::Failed, "failed")?);
    assert!(rt; says(rt.alloc(), OutsideStop::Memory, "out of memory")?);
    Ok(())
}
