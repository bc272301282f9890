// A part of a pattern and a name.
ghost use Rattle.std.specs.Prelude.{◌≡◌, drop, false, IfOk};
ghost use Rattle.wx_patterns.specs.Matching.{byte_fits, part_matches};
ghost use Rattle.wx_patterns.specs.Rows.{behind_byte, behind_bytes, fits_first, moved};

use crate::rows::{last_place, new_row, spread};
use std::alloc::Global;
use wx_text::Memory;

/// Whether this byte of a part fits the byte at this index of a name.
fn byte_fits_at(byte: u8, name: &[u8], i: usize) -> bool
    ensures { result ≡ fits_first (byte_fits byte) (drop i name.now) }
{
    match name.get(i) {
        Some(other) => byte == b'?' || byte == *other,
        None => false,
    }
}

/// One byte follows that this one fits.
fn one_byte(row: &mut [bool], byte: u8, name: &[u8])
    ensures { row.new ≡ moved (byte_fits byte) false row.old name.now }
{
    let mut before = false;
    for i in 0..row.len() {
        let here = row[i];
        row[i] = before;
        before = here & byte_fits_at(byte, name, i);
    }
}

/// What this byte of a part stands for follows.
fn next_byte(row: &mut [bool], byte: u8, name: &[u8])
    ensures { row.new ≡ behind_byte byte row.old name.now }
{
    if byte == b'*' {
        spread(row);
    } else {
        one_byte(row, byte, name);
    }
}

/// What these bytes of a part stand for follows, one after the other.
fn all_bytes(row: &mut [bool], part: &[u8], name: &[u8])
    ensures { row.new ≡ behind_bytes part.now row.old name.now }
{
    for byte in part {
        next_byte(row, *byte, name);
    }
}

/// Whether this part matches this name. It takes no choice twice: the time is that of the product of both lengths.
pub fn part_matches(alloc: Global, part: &[u8], name: &[u8]) -> Result<bool, Memory>
    ensures { IfOk result (λ answer. answer ≡ part_matches part.now name.now) }
{
    let mut row = new_row(alloc, true, name.len())?;
    all_bytes(row.as_mut_slice(), part, name);
    Ok(last_place(row.as_slice()))
}
