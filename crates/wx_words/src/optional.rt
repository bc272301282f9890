// A number that may be absent, as a word.
ghost use Rattle.std.specs.Prelude.{◌≡◌};
ghost use Rattle.wx_words.specs.Optional.{optional_in};

use crate::cursor::Words;
use crate::numbers::number_of;
use crate::spelled::Spelled;
use std::alloc::Global;
use wx_text::{Memory, Text};

/// The number that a word spells, or that there is none.
fn optional_of(word: &[u8]) -> Option<Option<u64>>
    ensures { result ≡ optional_in word.now }
{
    if word == b"-".as_slice() {
        return Some(None);
    }
    match number_of(word) {
        Some(n) => Some(Some(n)),
        None => None,
    }
}

impl Spelled for Option<u64> {
    ghost use Rattle.wx_words.specs.Parts.{optional};

    ghost spelling = { optional };

    fn put_after(&self, out: &mut Text) -> Result<(), Memory> {
        match self {
            None => out.append(b" -"),
            Some(n) => n.put_after(out),
        }
    }

    fn read(_alloc: Global, line: &mut Words) -> Result<Option<Option<u64>>, Memory> {
        match line.next() {
            Some(word) => Ok(optional_of(word)),
            None => Ok(None),
        }
    }
}
