// Numbers as words.
ghost use Rattle.std.specs.Prelude.{◌≡◌, ◌+◌, ◌<◌, [], Option, Some, None};
ghost use Rattle.wx_words.specs.Line.{Reads};
ghost use Rattle.wx_words.specs.Numbers.{number_in, read_u32, with_digits};

use crate::cursor::Words;
use crate::spelled::Spelled;
use std::alloc::Global;
use wx_text::{Memory, Text};

/// The number that a word spells.
pub fn number_of(word: &[u8]) -> Option<u64>
    ensures { result ≡ number_in word.now }
{
    match word {
        [] => None,
        [_] => with_digits(word),
        [48, ..] => None,
        _ => with_digits(word),
    }
}

/// The number that digits spell, with a zero in front or without.
fn with_digits(word: &[u8]) -> Option<u64>
    ensures { result ≡ with_digits 0 word.now }
{
    let mut value = 0u64;
    for b in word {
        if *b < 48 || 57 < *b {
            return None;
        }
        let digit = (*b - 48) as u64;
        if (u64::MAX - digit) / 10 < value {
            return None;
        }
        value = value * 10 + digit;
    }
    Some(value)
}

impl Spelled for u64 {
    ghost use Rattle.wx_words.specs.Parts.{as_line, number};

    ghost spelling = { as_line number };

    fn put_after(&self, out: &mut Text) -> Result<(), Memory> {
        out.push(32)?;
        out.append_number(*self)
    }

    fn read(_alloc: Global, line: &mut Words) -> Result<Option<u64>, Memory> {
        match line.next() {
            Some(word) => Ok(number_of(word)),
            None => Ok(None),
        }
    }
}

impl Spelled for u32 {
    ghost use Rattle.wx_words.specs.Parts.{u32};

    ghost spelling = { u32 };

    fn put_after(&self, out: &mut Text) -> Result<(), Memory> {
        (*self as u64).put_after(out)
    }

    fn read(_alloc: Global, line: &mut Words) -> Result<Option<u32>, Memory> {
        Ok(take_u32(line))
    }
}

/// Takes the number below 2 ^ 32 at the front, or loses the place.
fn take_u32(line: &mut Words) -> Option<u32>
    ensures { Reads line.new result (read_u32 line.old) }
{
    let n = number_of(line.next()?)?;
    if n < 1 << 32 { Some(n as u32) } else { None }
}
