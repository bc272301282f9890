// Bytes that are read and sent.
ghost use Rattle.std.specs.Prelude.{◌≡◌, ◌≤◌, length};
ghost use Rattle.wx_reader.specs.Reads.{HasRead, HasSent, ends, is_end, is_stop};

use std::alloc::Global;
use std::sync::Wait;
use wx_bytes::Source;
use wx_control::Refused;
use wx_pass::HandlePass;
use wx_text::Memory;

/// The key that ends the program.
const Q: u8 = 113;

/// How many bytes are read at once.
const PIECE: usize = 10;

/// Whether a read that was sent is the last: an empty one, or one with `q`.
fn is_stop(bytes: &[u8]) -> bool
    ensures { result ≡ is_stop bytes.now }
{
    bytes.is_empty() || bytes.contains(&Q)
}

/// Sends what one read gave, where the queue isn't full, and answers whether reading is over: behind the end, and behind a `q` that was
/// sent. It fails only for want of memory, and then nothing was sent.
fn send_read<R: Wait + Copy>(
    alloc: Global,
    bytes: &[u8],
    pass: &mut HandlePass<R>,
) -> Result<bool, Memory>
    requires few { length bytes.now ≤ 10 }
    ensures { HasSent bytes.now pass.old pass.new result }
{
    match pass.keys(alloc, bytes) {
        Ok(()) => Ok(is_stop(bytes)),
        Err(Refused::Full) => Ok(bytes.is_empty()),
        Err(Refused::Memory) => Err(Memory),
    }
}

/// Reads once, sends what was read, and answers whether reading is over. It fails only for want of memory.
fn read_once<R: Wait + Copy, S: Source>(
    alloc: Global,
    source: &mut S,
    pass: &mut HandlePass<R>,
) -> Result<bool, Memory>
    ensures { HasRead S.left S.faults source.old source.new pass.old pass.new (ends result) }
{
    let mut buf = [0u8; PIECE];
    match source.read(&mut buf) {
        Ok(count) => send_read(alloc, &buf[..count], pass),
        Err(_) => Ok(true),
    }
}

/// Reads the source, ten bytes at a time, and sends each read by the handle, the end as an empty one. A read that finds the queue full is
/// dropped. It stops behind the end, behind a fault, and behind a read with `q` that was sent; and it fails only for want of memory.
pub fn read_keys<R: Wait + Copy, S: Source>(
    rt: R,
    alloc: Global,
    source: &mut S,
    pass: &mut HandlePass<R>,
) -> Result<(), Memory>
    ensures { HasRead S.left S.faults source.old source.new pass.old pass.new (is_end result) }
{
    for _ in rt.forever() {
        match read_once(alloc, source, pass) {
            Ok(true) => return Ok(()),
            Ok(false) => {}
            Err(Memory) => return Err(Memory),
        }
    }
    unreachable!()
}
