// The bytes of a read from the keyboard: a copy of them, and their words.
ghost use Rattle.std.specs.Prelude.{◌≡◌, ◌++◌, OnOk, IfOk};
ghost use Rattle.std.specs.List.{flat_map, AllByRecursion};
ghost use Rattle.wx_words.specs.Line.{spaced, Reads};
ghost use Rattle.wx_words.specs.Lists.{read_items};
ghost use Rattle.wx_journal.specs.Bytes.{byte, bytes};

use std::alloc::Global;
use wx_text::{List, Memory, Text};
use wx_words::{Fields, Spelled, Words, number_of};

/// A list of these bytes. It fails only for want of memory.
pub fn copy_bytes(alloc: Global, bytes: &[u8]) -> Result<List<u8>, Memory>
    ensures { IfOk result (λ copied. copied ≡ bytes.now) }
{
    Ok(List::from_vec(Vec::from_slice(alloc, bytes)?))
}

/// Bytes, lent to be written: how many there are, and each as a number.
#[derive(Clone, Copy)]
pub struct BytesRef<'a> {
    pub bytes: &'a List<u8>,
}

#[tactic(auto, using(wx_words::specs::LineLaws::spaces), unfolding(wx_words::specs::Line::behind))]
impl<'a> Fields for BytesRef<'a> {
    ghost use Rattle.wx_journal.specs.Bytes.{bytes};

    ghost fits = { λ lent. bytes.fits lent.bytes.now };

    ghost words = { λ lent. bytes.words lent.bytes.now };

    fn put_fields(&self, out: &mut Text) -> Result<(), Memory> {
        (self.bytes.len() as u64).put_after(out)?;
        put_each(self.bytes.as_slice(), out)
    }
}

/// Appends each byte as a number, with a space before it. A part of them may stand in `out` where memory runs out.
#[tactic(auto, unfolding(wx_words::specs::Line::behind))]
fn put_each(bytes: &[u8], out: &mut Text) -> Result<(), Memory>
    ensures text { OnOk result (out.new ≡ out.old ++ spaced (flat_map byte.words bytes.now)) }
    ensures fits { OnOk result (AllByRecursion byte.fits bytes.now) }
{
    for byte in bytes {
        (*byte as u64).put_after(out)?;
    }
    Ok(())
}

/// Takes the byte at the front, or loses the place.
fn take_byte(line: &mut Words) -> Option<u8>
    ensures { Reads line.new result (byte.read line.old) }
{
    let n = number_of(line.next()?)?;
    if n < 1 << 8 { Some(n as u8) } else { None }
}

/// Takes so many bytes.
fn take_bytes(alloc: Global, count: u64, line: &mut Words) -> Result<Option<List<u8>>, Memory>
    ensures { IfOk result (λ xs. Reads line.new xs (read_items byte.read count line.old)) }
{
    let mut items = List::new(alloc);
    for _ in 0..count {
        let Some(item) = take_byte(line) else {
            return Ok(None);
        };
        items.push(item)?;
    }
    Ok(Some(items))
}

/// Takes bytes at the front, or loses the place.
#[tactic(auto, unfolding(wx_words::specs::Lists::read_list))]
pub fn read_bytes(alloc: Global, line: &mut Words) -> Result<Option<List<u8>>, Memory>
    ensures { IfOk result (λ found. Reads line.new found (bytes.read line.old)) }
{
    match u64::read(alloc, line)? {
        Some(count) => take_bytes(alloc, count, line),
        None => Ok(None),
    }
}
