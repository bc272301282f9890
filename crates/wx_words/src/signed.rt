// Signed numbers as words.
ghost use Rattle.std.specs.Prelude.{◌≡◌, FitsSigned};
ghost use Rattle.std.specs.Int.{w64};
ghost use Rattle.wx_words.specs.Texts.{text_in};
ghost use Rattle.wx_words.specs.Line.{Reads};
ghost use Rattle.wx_words.specs.Signed.{signed_in, signed_words, read_i64, read_i32};
ghost use Rattle.wx_words.specs.SignedLaws.{i64_form, i64_clean};

use crate::cursor::Words;
use crate::numbers::number_of;
use crate::spelled::Spelled;
use std::alloc::Global;
use wx_text::{Memory, Text};

/// The signed number that a word spells, whose absolute value has 64 bits at most.
fn signed_of(word: &[u8]) -> Option<i128>
    ensures { result ≡ signed_in word.now }
{
    match word {
        [45, digits @ ..] => match number_of(digits) {
            Some(0) | None => None,
            Some(n) => Some(-(n as i128)),
        },
        _ => match number_of(word) {
            Some(n) => Some(n as i128),
            None => None,
        },
    }
}

/// Takes the number of 64 bits at the front, or loses the place.
fn take_i64(line: &mut Words) -> Option<i64>
    ensures { Reads line.new result (read_i64 line.old) }
{
    let n = signed_of(line.next()?)?;
    if i64::MIN as i128 <= n && n <= i64::MAX as i128 {
        Some(n as i64)
    } else {
        None
    }
}

/// Takes the number of 32 bits at the front, or loses the place.
fn take_i32(line: &mut Words) -> Option<i32>
    ensures { Reads line.new result (read_i32 line.old) }
{
    let n = signed_of(line.next()?)?;
    if i32::MIN as i128 <= n && n <= i32::MAX as i128 {
        Some(n as i32)
    } else {
        None
    }
}

impl Spelled for i64 {
    ghost spelling = { record { fits = λ z. FitsSigned w64 z; words = signed_words; read = read_i64; form = i64_form text_in; clean = i64_clean } };

    fn put_after(&self, out: &mut Text) -> Result<(), Memory> {
        out.push(32)?;
        out.append_signed(*self)
    }

    fn read(_alloc: Global, line: &mut Words) -> Result<Option<i64>, Memory> {
        Ok(take_i64(line))
    }
}

impl Spelled for i32 {
    ghost use Rattle.wx_words.specs.Parts.{as_line, i32};

    ghost spelling = { as_line i32 };

    fn put_after(&self, out: &mut Text) -> Result<(), Memory> {
        (*self as i64).put_after(out)
    }

    fn read(_alloc: Global, line: &mut Words) -> Result<Option<i32>, Memory> {
        Ok(take_i32(line))
    }
}
