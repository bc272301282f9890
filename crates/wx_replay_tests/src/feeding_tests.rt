// Tests of reading a source to its end and of writing to a sink, in pieces and with calls that fail.
ghost use Rattle.std.specs.Prelude.{◌<◌};

use std::alloc::Global;
use std::process::Abort;
use wx_bytes::{CODE, LIMIT, MemSink, MemSource, Unread, WriteFault, read_all, write_all};
use wx_text::Memory;

const BYTES: &[u8] = b"0123456789";

/// Whether `BYTES` are read whole in pieces of this size, with no fault.
fn reads_whole(alloc: Global, piece: usize) -> Result<bool, Memory>
    requires { 0 < piece }
{
    let mut source = MemSource::new(alloc, BYTES)?.in_pieces(piece);
    match read_all(alloc, &mut source) {
        Ok(text) => Ok(text.as_slice() == BYTES && source.faults() == 0),
        Err(_) => Ok(false),
    }
}

/// Ends the test where this isn't so at this call, or in pieces of this size.
fn expect_at(rt: &impl Abort, so: bool, at: u64) {
    assert!(rt; so, "at {at}");
}

#[test]
fn reads_in_pieces(rt: HostRuntime) {
    for piece in [1, 3, 9, 10, 4096] {
        let whole = reads_whole(rt.alloc(), piece) == Ok(true);
        expect_at(&rt, whole, piece as u64);
    }
}

/// Why `BYTES` are not read in pieces of 3 where this call fails, and how many faults there are then.
fn read_failing(alloc: Global, call: u64) -> Result<(Option<Unread>, u64), Memory> {
    let at = vec![in alloc; call]?;
    let mut source = MemSource::new(alloc, BYTES)?.in_pieces(3).failing(at);
    let unread = read_all(alloc, &mut source).err();
    Ok((unread, source.faults()))
}

/// Holds a read of which this call fails to answer so, with so many faults.
fn expect_read(rt: &impl Abort, alloc: Global, call: u64, want: Option<Unread>, faults: u64) {
    expect_at(rt, read_failing(alloc, call) == Ok((want, faults)), call);
}

#[test]
fn reads_up_to_a_fault(rt: HostRuntime) {
    // in pieces of 3 these are five reads, of which the last answers 0
    for call in [1, 2, 3, 4, 5] {
        expect_read(&rt, rt.alloc(), call, Some(Unread::Fault), 1);
    }
    expect_read(&rt, rt.alloc(), 6, None, 0);
}

/// How many of as many bytes are read, or why none are.
fn read_many(alloc: Global, count: usize) -> Result<Result<usize, Unread>, Memory> {
    let bytes = vec![in alloc; b'x'; count]?;
    let mut source = MemSource::new(alloc, bytes.as_slice())?;
    Ok(read_all(alloc, &mut source).map(|text| text.len()))
}

#[test]
fn keeps_to_the_limit(rt: HostRuntime) {
    assert!(rt; read_many(rt.alloc(), LIMIT) == Ok(Ok(LIMIT)));
    assert!(rt; read_many(rt.alloc(), LIMIT + 1) == Ok(Err(Unread::TooLong)));
}

/// Whether the sink has these bytes after `BYTES` were written in pieces of 4 and this call failed. Also what the write
/// answered, and how many faults there were.
fn write_failing(
    alloc: Global,
    call: u64,
    held: &[u8],
) -> Result<(bool, Result<(), WriteFault>, u64), Memory> {
    let at = vec![in alloc; call]?;
    let mut sink = MemSink::new(alloc).in_pieces(4).failing(at);
    let result = write_all(&mut sink, BYTES);
    Ok((sink.text().as_slice() == held, result, sink.faults()))
}

/// Holds a write of which this call fails to answer so, with so many faults, where the sink has these bytes then.
fn expect_write(
    rt: &impl Abort,
    alloc: Global,
    call: u64,
    held: &[u8],
    want: Result<(), WriteFault>,
    faults: u64,
) {
    let found = write_failing(alloc, call, held);
    expect_at(rt, found == Ok((true, want, faults)), call);
}

#[test]
fn writes_up_to_a_fault(rt: HostRuntime) {
    // in pieces of 4 these are three writes
    let fault = Err(WriteFault(CODE));
    expect_write(&rt, rt.alloc(), 1, b"", fault, 1);
    expect_write(&rt, rt.alloc(), 2, b"0123", fault, 1);
    expect_write(&rt, rt.alloc(), 3, b"01234567", fault, 1);
    expect_write(&rt, rt.alloc(), 4, BYTES, Ok(()), 0);
}
